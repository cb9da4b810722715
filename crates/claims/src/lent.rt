// The calls that hear, make and answer claims, for the crates above: keys, the parts of a store or a store are lent, none is copied, and question 1 is not put
// again.
// Each is total, and says by a definition of specs/Lent what it does to any content; where it refuses, it has written nothing.
ghost use Rattle.std.specs.Prelude.{◌≡◌, true, ◌≤◌};
ghost use Rattle.keys.specs.Lent.{store_with, store_lent, add_in};
ghost use Rattle.claims.specs.Claim.{middle_key};
ghost use Rattle.claims.specs.Answer.{made_by, answer_told};
ghost use Rattle.claims.specs.Question.{question16};
ghost use Rattle.claims.specs.Lent.{tells_third, hearing_with, hear_in, make_in, answer_in, mark_heard, replied_with, reply_in};

use crate::answer::Answer;
use crate::claim::{Claim, judge, middle_key};
use crate::piece::Piece;
use crate::refusal::Refusal;
use keys::{Added, LentStore, Store, add_both_in, add_in, places_in, resum_in};

// A claim replied to: how far the sums are right then, and the answer.
#[derive(Clone, Copy)]
pub struct Told {
    pub mark: usize,
    pub answer: Answer,
}

// Whether the claim tells a third key to be added: it is of three keys, and its ends stand side by side at first and last. That the key lies between them
// need not be tested: the claim has passed 16.
fn tells_third(first: usize, last: usize, claim: Claim) -> bool
    requires { (first ≤ last) × ((question16 claim).yes ≡ true) }
    ensures { result ≡ tells_third first last claim }
{
    claim.cnt == 3 && last - first == 1
}

// Adds the third key that the claim tells, if there is space, and says how many keys are held then.
fn add_third(keys: &mut [u64; Store::LIMIT], count: usize, claim: Claim) -> usize
    ensures { store_with keys.new result ≡ (add_in (store_with keys.old count) (middle_key claim)).store }
{
    match add_in(keys, count, middle_key(claim)) {
        Some(added) => added.count,
        None => count,
    }
}

// Adds what hearing a claim adds, and says where its lo and hi stand then. Asks 2 to 5, 16 and 6.
pub fn hear_in(keys: &mut [u64; Store::LIMIT], count: usize, claim: Claim) -> Result<Added, Refusal>
    ensures { hearing_with keys.new count result ≡ hear_in (store_with keys.old count) claim }
{
    judge(claim)?;
    let ends = add_both_in(keys, count, claim.lo, claim.hi).ok_or(Refusal::NoRoom)?;
    if !tells_third(ends.first, ends.last, claim) {
        return Ok(ends);
    }
    let held = add_third(keys, ends.count, claim);
    Ok(Added {
        count: held,
        first: ends.first,
        last: ends.last + (held - ends.count),
    })
}

// The claim of positions first to last, if they are positions.
#[tactic(auto, unfolding(crate::specs::Lent::make_in))]
pub fn make_in(store: LentStore, first: usize, last: usize) -> Result<Claim, Refusal>
    ensures { made_by result ≡ make_in (store_lent store.entry) first last }
{
    let piece = Piece::within(store, first, last).ok_or(Refusal::NoPositions)?;
    Ok(piece.claim())
}

// The answer to a claim whose lo and hi are sought; none is added. 1 where they are not found at positions.
#[tactic(auto, unfolding(crate::specs::Lent::answer_in))]
pub fn answer_in(store: LentStore, claim: Claim) -> Result<Answer, Refusal>
    ensures { answer_told result ≡ answer_in (store_lent store.entry) claim }
{
    let places = places_in(store.keys, store.count, claim.lo, claim.hi);
    let piece = Piece::within(store, places.lower.at, places.upper.at).ok_or(Refusal::OutOfOrder)?;
    Ok(piece.answer(claim))
}

// How far the sums are right once a claim is heard, `heard` keys being held then.
fn mark_heard(mark: usize, count: usize, heard: usize, first: usize) -> usize
    ensures { result ≡ mark_heard mark count heard first }
{
    if heard == count {
        mark
    } else {
        mark.min(first)
    }
}

// The reply to a claim, where the sums below the mark are right: those from there to hi are worked out before they are read. Asks 2 to 5, 16 and 6.
pub fn reply_in(store: &mut Store, mark: usize, claim: Claim) -> Result<Told, Refusal>
    ensures { replied_with store.new mark result ≡ reply_in (record { store = store.old; mark = mark }) claim }
{
    let count = store.count;
    let heard = hear_in(&mut store.keys, count, claim)?;
    let known = mark_heard(mark, count, heard.count, heard.first);
    let end = heard.last + 1;
    resum_in(&store.keys, &mut store.sums, known, end);
    store.count = heard.count;
    let piece = Piece {
        keys: &store.keys,
        sums: &store.sums,
        first: heard.first,
        last: heard.last,
    };
    Ok(Told {
        mark: known.max(end),
        answer: piece.answer(claim),
    })
}
