// The beat of a node.
ghost use Rattle.std.specs.Prelude.{◌≡◌, ◌+◌, ◌*◌, ◌≤◌, length, take};
ghost use Rattle.keys.specs.Lent.{store_lent};
ghost use Rattle.claims.specs.Answer.{answer_told};
ghost use Rattle.claims.specs.Reply.{claims_of, matches};
ghost use Rattle.claims.specs.Words.{claim_width};
ghost use Rattle.rule.specs.Answer.{beaten_by};
ghost use Rattle.rule.specs.Table.{table_limit, beat_replies, remains};
ghost use Rattle.rule.specs.Call.{beaten, beaten_lent};
ghost use Rattle.nodes.specs.Lent.{node_by};
ghost use Rattle.beats.specs.Lent.{serve_in, whole_in, Wrote, Turned, ServedAt, kept_by, beaten_with, BeatsIn};

use claims::{Answer, Claim, Refusal, answer_in, make_in};
use keys::LentStore;
use nodes::ordered;
use rule::{Node, Table};
use words::put_claim;

// Writes the claims that an answer carries, and returns the place after them.
fn write_answer(lent: &mut [u64], at: usize, answer: Result<Answer, Refusal>) -> usize
    requires { claim_width * (at + 2) ≤ length lent.old }
    ensures { Wrote at (claims_of (answer_told answer)) lent.old result lent.new }
{
    let Ok(reply) = answer else {
        return at;
    };
    match reply {
        Answer::Match => at,
        Answer::Ask(claim) | Answer::One(claim) => {
            put_claim(lent, Claim::WORDS * at, claim);
            at + 1
        }
        Answer::Two(one, two) => {
            put_claim(lent, Claim::WORDS * at, one);
            put_claim(lent, Claim::WORDS * (at + 1), two);
            at + 2
        }
    }
}

// Whether an answer is a match.
fn matches(answer: Result<Answer, Refusal>) -> bool
    ensures { result ≡ matches (answer_told answer) }
{
    matches!(answer, Ok(Answer::Match))
}

// Whether a claim that is replied to stays pending: only one that was asked about does.
fn remains(answer: Result<Answer, Refusal>) -> bool
    ensures { result ≡ remains (answer_told answer) }
{
    matches!(answer, Ok(Answer::Ask(_)))
}

// What comes of one pending claim: whether it stays, how many replies are left then, and the place after what was written. No Option: the two numbers are
// told whether or not it stays.
#[derive(Clone, Copy)]
struct Turn {
    stays: bool,
    left: usize,
    written: usize,
}

// Serves one pending claim with so many replies left, and writes the claims of its answer from a place on: a match leaves and does not count; where no
// reply is left, any other claim stays and sends nothing.
fn serve_claim(lent: &mut [u64], at: usize, left: usize, answer: Result<Answer, Refusal>) -> Turn
    requires { claim_width * (at + 2 * left) ≤ length lent.old }
    ensures { Turned at left (answer_told answer) lent.old result lent.new }
{
    if matches(answer) {
        return Turn {
            stays: false,
            left,
            written: at,
        };
    }
    if left == 0 {
        return Turn {
            stays: true,
            left,
            written: at,
        };
    }
    Turn {
        stays: remains(answer),
        left: left - 1,
        written: write_answer(lent, at, answer),
    }
}

// Serves the pending claims in table order, of which so many are replied to as a beat allows, and writes the claims of their answers from a place on. Those
// that stay are the table then. Returns the place after what was written.
fn serve_table(store: LentStore, pending: &mut Table, lent: &mut [u64], at: usize) -> usize
    requires { (pending.old.count ≤ table_limit) × (claim_width * (at + 2 * beat_replies) ≤ length lent.old) }
    ensures { ServedAt at (serve_in (store_lent store.entry) beat_replies (take pending.old.count pending.old.claims)) lent.old
        (kept_by pending.new (Ok result)) lent.new }
{
    let mut kept = Table::EMPTY;
    let mut left = Node::REPLIES;
    let mut written = at;
    for claim in &pending.claims[..pending.count] {
        let answer = answer_in(store, *claim);
        let turn = serve_claim(lent, written, left, answer);
        left = turn.left;
        written = turn.written;
        if turn.stays {
            kept.claims[kept.count] = *claim;
            kept.count += 1;
        }
    }
    *pending = kept;
    written
}

// Writes the whole claim to the first place, if there is one, and returns the place after it. What it shares with the one of a round is the call of `make_in`.
fn write_whole(store: LentStore, lent: &mut [u64]) -> usize
    requires { claim_width ≤ length lent.old }
    ensures { Wrote 0 (whole_in (store_lent store.entry)) lent.old result lent.new }
{
    if store.count == 0 {
        return 0;
    }
    let whole = make_in(store, 0, store.count - 1).unwrap_or(Claim::NONE);
    put_claim(lent, 0, whole);
    1
}

// The beat of a node whose keys and sums are lent, for any content: the pending claims that stay are left in the table, and the places written are returned.
// Question 1 is not put, but a table that could not be read is refused with its number. Asks 15.
pub fn beat_in(store: LentStore, pending: &mut Table, lent: &mut [u64]) -> Result<usize, Refusal>
    ensures { BeatsIn (node_by store.entry.keys.now store.entry.sums.now store.entry.count pending.old) lent.old
        (beaten_with store.entry.keys.now store.entry.sums.now store.entry.count (kept_by pending.new result)) lent.new }
{
    if Node::TABLE < pending.count {
        return Err(Refusal::OutOfOrder);
    }
    if lent.len() / Claim::WORDS < Node::BEAT {
        return Err(Refusal::OutputTooShort);
    }
    let at = write_whole(store, lent);
    Ok(serve_table(store, pending, lent, at))
}

// The beat of a node: the whole claim and the claims of the replies to the pending ones are written, one after the other, and the places written are returned.
// Asks 1 and 15.
pub fn beat(node: &mut Node, lent: &mut [u64]) -> Result<usize, Refusal>
    ensures { (beaten_by node.new result ≡ beaten node.old lent.old) × (lent.new ≡ beaten_lent node.old lent.old) }
{
    if !ordered(node) {
        return Err(Refusal::OutOfOrder);
    }
    let store = LentStore {
        keys: &node.store.keys,
        sums: &node.store.sums,
        count: node.store.count,
    };
    beat_in(store, &mut node.pending, lent)
}
