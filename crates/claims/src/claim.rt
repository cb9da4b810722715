// Claims.
ghost use Rattle.std.specs.Prelude.{◌≡◌, ◌≤◌};
ghost use Rattle.claims.specs.Claim.{middle_key, middle_inside};
ghost use Rattle.claims.specs.Question.{question3, question4, question5, question16};
ghost use Rattle.claims.specs.Refusal.{number_told};
ghost use Rattle.claims.specs.Call.{judged, judged_formerly};

use crate::refusal::Refusal;
use keys::Store;

// What a claim says: "from lo to hi I hold cnt keys, whose XOR is sum". The fields stand in the order in which tables compare claims.
#[derive(Clone, Copy, PartialEq, Eq, PartialOrd, Ord)]
pub struct Claim {
    pub cnt: u16,
    pub lo: u64,
    pub hi: u64,
    pub sum: u64,
}

impl Claim {
    // The words of a claim in a lent run. `claim_width` in specs/Words.
    pub const WORDS: usize = 4;

    // The claim of zeros, which stands where there is none.
    pub const NONE: Claim = Claim {
        cnt: 0,
        lo: 0,
        hi: 0,
        sum: 0,
    };
}

// Asks 2 to 5 and 16.
pub fn judge(claim: Claim) -> Result<(), Refusal>
    ensures { number_told result ≡ judged claim }
{
    judge_formerly(claim)?;
    if !tells(claim) {
        return Err(Refusal::MiddleOutside);
    }
    Ok(())
}

// Asks 2 to 5: as claims were judged before 16 came, and as those in an image still are.
#[tactic(auto, unfolding(crate::specs::Call::judged_formerly))]
pub fn judge_formerly(claim: Claim) -> Result<(), Refusal>
    ensures { number_told result ≡ judged_formerly claim }
{
    if claim.hi < claim.lo {
        return Err(Refusal::LoAboveHi);
    }
    if !counted(claim) {
        return Err(Refusal::CountBeyondLimit);
    }
    if !spanned(claim) {
        return Err(Refusal::CountBeyondSpan);
    }
    if !summed(claim) {
        return Err(Refusal::WrongSum);
    }
    Ok(())
}

// Question 3: is cnt from 1 to the limit?
fn counted(claim: Claim) -> bool
    ensures { result ≡ (question3 claim).yes }
{
    1 <= claim.cnt && claim.cnt as usize <= Store::LIMIT
}

// Question 4: is cnt 1 when lo = hi, and otherwise from 2 to hi - lo + 1?
fn spanned(claim: Claim) -> bool
    requires { claim.lo ≤ claim.hi }
    ensures { result ≡ (question4 claim).yes }
{
    if claim.lo == claim.hi {
        claim.cnt == 1
    } else {
        2 <= claim.cnt && claim.cnt as u64 - 1 <= claim.hi - claim.lo
    }
}

// Question 5: is sum lo when cnt is 1, and lo XOR hi when cnt is 2?
fn summed(claim: Claim) -> bool
    ensures { result ≡ (question5 claim).yes }
{
    match claim.cnt {
        1 => claim.sum == claim.lo,
        2 => claim.sum == claim.lo ^ claim.hi,
        _ => true,
    }
}

// Question 16: is the key that a claim of three keys tells strictly between lo and hi?
pub fn tells(claim: Claim) -> bool
    ensures { result ≡ (question16 claim).yes }
{
    claim.cnt != 3 || middle_inside(claim)
}

// The key between lo and hi that a claim of three keys tells.
pub(crate) fn middle_key(claim: Claim) -> u64
    ensures { result ≡ middle_key claim }
{
    claim.sum ^ claim.lo ^ claim.hi
}

// Whether that key lies strictly between lo and hi.
fn middle_inside(claim: Claim) -> bool
    ensures { result ≡ middle_inside claim }
{
    let middle = middle_key(claim);
    claim.lo < middle && middle < claim.hi
}
