// Records of a transcript in a lent run of words, one after the other: the sender, then the claim. Each function is total.
ghost use Rattle.std.specs.Prelude.{◌≡◌, ◌<◌, ◌/◌};
ghost use Rattle.claims.specs.Answer.{said};
ghost use Rattle.claims.specs.Reply.{claims_of};
ghost use Rattle.transcript.specs.Core.{sender_of, claim_in, log_with, put_record, put_records};

use claims::{Answer, Claim};
use rule::Delivery;
use words::{claim_at, put_claim};

// The words of a record.
pub const RECORD: usize = Delivery::WORDS;

// An end of a round. Its number stands in a record as the sender.
#[derive(Clone, Copy)]
pub(crate) enum End {
    Left = 0,
    Right = 1,
}

// The claim of a record, and zeros past the last one.
#[tactic(auto, using(claims::proofs::WordsLaws::claim_at_past))]
pub fn claim_in(words: &[u64], at: usize) -> Claim
    ensures { result ≡ claim_in words.now at }
{
    if at < words.len() / RECORD {
        return claim_at(words, at * RECORD + 1);
    }
    Claim::NONE
}

// Writes a record, and says where the next one goes; past the last record nothing changes. Words and place are passed along: a struct that held the words by
// reference would have each step promise besides that it keeps them.
#[tactic(auto, unfolding(crate::specs::Core::put_record))]
pub(crate) fn put_record(words: &mut [u64], at: usize, sender: End, claim: Claim) -> usize
    ensures { log_with words.new result ≡ put_record (log_with words.old at) (sender_of sender) claim }
{
    if at < words.len() / RECORD {
        let base = at * RECORD;
        words[base] = sender as u64;
        put_claim(words, base + 1, claim);
        return at + 1;
    }
    at
}

// Writes the claims of an answer. So does the beat (`write_answer` of `beats`), without a sender: one function for both would be lent either's way of writing.
pub(crate) fn put_answer(words: &mut [u64], at: usize, sender: End, answer: Answer) -> usize
    ensures { log_with words.new result ≡ put_records (log_with words.old at) (sender_of sender) (claims_of (said answer)) }
{
    match answer {
        Answer::Match => at,
        Answer::Ask(claim) | Answer::One(claim) => put_record(words, at, sender, claim),
        Answer::Two(first, second) => {
            let then = put_record(words, at, sender, first);
            put_record(words, then, sender, second)
        }
    }
}
