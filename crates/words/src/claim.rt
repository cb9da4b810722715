// A claim in a lent run of words, one word to a field: lo, hi, sum, cnt. Each function is total.
ghost use Rattle.std.specs.Prelude.{◌≡◌};
ghost use Rattle.claims.specs.Words.{claim_at, put_claim};

use claims::Claim;

// The claim at a place, and zeros where the words end before it does. Of its count the low 16 bits are read.
#[tactic(auto, unfolding(claims::specs::Words::claim_at))]
pub fn claim_at(words: &[u64], at: usize) -> Claim
    ensures { result ≡ claim_at words.now at }
{
    match words.get(at..) {
        Some([lo, hi, sum, cnt, ..]) => Claim {
            cnt: (*cnt % 65536) as u16,
            lo: *lo,
            hi: *hi,
            sum: *sum,
        },
        _ => Claim::NONE,
    }
}

// Writes a claim to a place; where the words end before it does, nothing changes. That it fits is asked by a difference: the place and the width could be more
// than a number holds. Four stores, since a copy of four fields goes by the stack and took twice as long.
#[tactic(auto, using(claims::proofs::WordsLaws::put_claim_set, claims::proofs::WordsLaws::put_claim_past))]
pub fn put_claim(words: &mut [u64], at: usize, claim: Claim)
    ensures { words.new ≡ put_claim words.old at claim }
{
    if Claim::WORDS <= words.len() && at <= words.len() - Claim::WORDS {
        words[at] = claim.lo;
        words[at + 1] = claim.hi;
        words[at + 2] = claim.sum;
        words[at + 3] = claim.cnt as u64;
    }
}
