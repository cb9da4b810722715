// The public calls of document 01: for any content, the first question answered no decides, and then the rule. On a refusal the store is as it was.
ghost use Rattle.std.specs.Prelude.{◌≡◌, [], ◌∷◌};
ghost use Rattle.keys.specs.Store.{Sized};
ghost use Rattle.claims.specs.Answer.{entered_by, made_by, replied_by};
ghost use Rattle.claims.specs.Refusal.{number_told};
ghost use Rattle.claims.specs.Question.{first_no, question1};
ghost use Rattle.claims.specs.Call.{entered, made, Replying};

use crate::answer::Answer;
use crate::claim::Claim;
use crate::lent::{make_in, reply_in};
use crate::refusal::Refusal;
use keys::{LentStore, Store, add_in, summed_in};

// Asks 1. The parts are lent here and not by `lent`: so the check sees how long the arrays are, which is the second promise.
#[tactic(auto, using(keys::proofs::LentLaws::summed_in_in_order))]
fn ordered(store: &Store) -> Result<(), Refusal>
    ensures asked { number_told result ≡ first_no (question1 store.now ∷ []) }
    ensures sized { Sized store.now }
{
    let lent = LentStore {
        keys: &store.keys,
        sums: &store.sums,
        count: store.count,
    };
    if !summed_in(lent) {
        return Err(Refusal::OutOfOrder);
    }
    Ok(())
}

// Enters a key. Asks 1 and 6.
pub fn enter(store: &mut Store, key: u64) -> Result<(), Refusal>
    ensures { entered_by store.new result ≡ entered store.old key }
{
    ordered(store)?;
    let added = add_in(&mut store.keys, store.count, key).ok_or(Refusal::NoRoom)?;
    store.count = added.count;
    store.renew(added.first);
    Ok(())
}

// Makes the claim of positions first to last. Asks 1 and 7.
pub fn make(store: &Store, first: usize, last: usize) -> Result<Claim, Refusal>
    ensures { made_by result ≡ made store.now first last }
{
    ordered(store)?;
    make_in(store.lent(), first, last)
}

// Replies to a claim. Asks 1, 2 to 5, 16 and 6.
pub fn reply(store: &mut Store, claim: Claim) -> Result<Answer, Refusal>
    ensures { Replying store.old claim (replied_by store.new result) }
{
    ordered(store)?;
    let told = reply_in(store, store.count, claim)?;
    store.renew(told.mark);
    Ok(told.answer)
}
