// A claim in a lent run of words, read and written: how the crates above hand claims on in flat runs. What that means is defined and has its laws in
// `claims` (specs/Words). A crate of its own, since a check of `claims` would be longer by a quarter, and so would each edit that is tried there.
#![tactic(auto)]

mod claim;

pub use claim::{claim_at, put_claim};
