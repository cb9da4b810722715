// A round on a flat run of words. The lent records are the queue itself: those before `head` are delivered, those from
// `head` to `tail` wait. Question 1 is put once to each store, and no store is copied for a delivery.
ghost use Rattle.std.specs.Prelude.{◌≡◌, ◌≤◌, ◌<◌};
ghost use Rattle.keys.specs.Store.{Sized};
ghost use Rattle.claims.specs.Lent.{reply_in};
ghost use Rattle.claims.specs.Refusal.{number_told};
ghost use Rattle.claims.specs.Reply.{claims_of};
ghost use Rattle.rule.specs.Answer.{met_by};
ghost use Rattle.rule.specs.Call.{met, records_in, met_words};
ghost use Rattle.transcript.specs.Core.{sender_of, log_with, put_records, put_whole, step, finish, settled, both, asked};
ghost use Rattle.transcript.specs.Core.{marked_by, core_by, settled_at, Stepped};

use crate::record::{End, RECORD, put_answer, put_record};
use claims::{Claim, Refusal, make_in, reply_in};
use keys::{Store, summed_in};
use merging::union_count_in;
use words::claim_at;

// Where the core is: below which place the sums of each end are right, and where the next record goes. Both stores and the words stand beside it as
// parameters of each step: a struct that held the three references would have each step promise besides that it keeps them. So each step says for itself
// that the tail is within the words.
#[derive(Clone, Copy)]
struct Reached {
    left: usize,
    right: usize,
    tail: usize,
}

// The questions of a round, 1 (left, then right), 8 and 9.
#[tactic(auto, using(crate::proofs::FlatPaths::lent_summed), unfolding(crate::specs::Core::asked))]
fn asked(left: &Store, right: &Store, records: usize) -> Result<(), Refusal>
    ensures told { number_told result ≡ asked left.now right.now records }

    // What a store's type says, for a caller that reads no place of it.
    ensures sized { Sized left.now × Sized right.now }
{
    let here = left.count;
    let there = right.count;
    if !summed_in(left.lent()) || !summed_in(right.lent()) {
        return Err(Refusal::OutOfOrder);
    }
    let n = union_count_in(&left.keys[..here], &right.keys[..there]);
    if Store::LIMIT < n {
        return Err(Refusal::UnionBeyondLimit);
    }
    if records < 2 * n {
        return Err(Refusal::TranscriptTooShort);
    }
    Ok(())
}

// Puts one end's whole claim last, none if it has no keys, and says where the next record goes.
#[tactic(auto, unfolding(crate::specs::Core::put_whole))]
fn put_whole(end: &Store, words: &mut [u64], at: usize, sender: End) -> usize
    ensures { log_with words.new result ≡ put_whole end.now (log_with words.old at) (sender_of sender) }
{
    if end.count == 0 {
        return at;
    }
    let claim = make_in(end.lent(), 0, end.count - 1).unwrap_or(Claim::NONE);
    put_record(words, at, sender, claim)
}

// One end hears a claim, and its reply's claims are put last: says below which place its sums are right then, and where the next record goes.
fn receive(
    end: &mut Store,
    mark: usize,
    claim: Claim,
    words: &mut [u64],
    at: usize,
    sender: End,
) -> (usize, usize)
    ensures heard { marked_by end.new result.0 ≡ (reply_in (marked_by end.old mark) claim).marked }
    ensures put { log_with words.new result.1
        ≡ put_records (log_with words.old at) (sender_of sender) (claims_of (reply_in (marked_by end.old mark) claim).answer) }
{
    match reply_in(end, mark, claim) {
        Ok(told) => (told.mark, put_answer(words, at, sender, told.answer)),
        Err(_) => (mark, at),
    }
}

// One delivery: the record at `head` goes to the other end, whose reply's claims are put last. Two arms: with the end chosen first, its mark would have to be
// put back by a second choice.
#[tactic(auto, unfolding(crate::specs::Core::step))]
fn deliver(
    left: &mut Store,
    right: &mut Store,
    words: &mut [u64],
    head: usize,
    at: Reached,
) -> Reached
    requires { (head < at.tail) × (at.tail ≤ records_in words.old) }
    ensures { Stepped result left.new right.new words.new (step (core_by left.old right.old words.old head at)) }
{
    let place = head * RECORD;
    let claim = claim_at(words, place + 1);
    if words[place] == End::Left as u64 {
        let (mark, tail) = receive(right, at.right, claim, words, at.tail, End::Right);
        return Reached {
            right: mark,
            tail,
            ..at
        };
    }
    let (mark, tail) = receive(left, at.left, claim, words, at.tail, End::Left);
    Reached {
        left: mark,
        tail,
        ..at
    }
}

// Deliveries until none waits. No `for` over the records: how many wait changes as they are delivered.
fn deliver_all(
    left: &mut Store,
    right: &mut Store,
    words: &mut [u64],
    from: usize,
    at: Reached,
) -> Reached
    requires { at.tail ≤ records_in words.old }
    ensures { Stepped result left.new right.new words.new (finish (core_by left.old right.old words.old from at)) }
{
    let mut head = from;
    let mut reached = at;
    while head < reached.tail {
        reached = deliver(left, right, words, head, reached);
        head += 1;
    }
    reached
}

// Deliveries until none waits, and then the sums of both ends. Says where the next record goes.
fn deliver_half(
    left: &mut Store,
    right: &mut Store,
    words: &mut [u64],
    from: usize,
    tail: usize,
) -> usize
    requires { tail ≤ records_in words.old }
    ensures { Stepped (settled_at left.new right.new result) left.new right.new words.new
        (settled (finish (core_by left.old right.old words.old from (settled_at left.old right.old tail)))) }
{
    let at = Reached {
        left: left.count,
        right: right.count,
        tail,
    };
    let reached = deliver_all(left, right, words, from, at);
    left.renew(reached.left);
    right.renew(reached.right);
    reached.tail
}

// Both halves, each with its end's whole claim put after all that was delivered. Says how many records there are then.
fn both_halves(left: &mut Store, right: &mut Store, words: &mut [u64]) -> usize
    ensures { Stepped (settled_at left.new right.new result) left.new right.new words.new (both left.old right.old words.old) }
{
    let end = put_whole(left, words, 0, End::Left);
    let done = deliver_half(left, right, words, 0, end);
    let last = put_whole(right, words, done, End::Right);
    deliver_half(left, right, words, done, last)
}

// A round. Asks 1 (left, then right), 8 and 9, of as many records as the words have.
pub fn round_words(left: &mut Store, right: &mut Store, words: &mut [u64]) -> Result<usize, Refusal>
    ensures told { met_by left.new right.new result ≡ met left.old right.old (records_in words.old) }
    ensures written { words.new ≡ met_words left.old right.old words.old }
{
    asked(left, right, words.len() / RECORD)?;
    Ok(both_halves(left, right, words))
}
