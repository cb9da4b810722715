// What a store answers to a claim.
use crate::claim::Claim;

// The answer to one claim that was not refused.
#[derive(Clone, Copy)]
pub enum Answer {
    Match,
    Ask(Claim),
    One(Claim),
    Two(Claim, Claim),
}
