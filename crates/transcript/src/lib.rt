// A round on a flat run of words (document 01, "A round"), which holds its transcript: the core that `rounds` puts records around.
// Each public call takes any content and states its whole result, and every lent place, by an equation with a definition.
#![tactic(auto)]

mod flat;
mod record;

pub use flat::round_words;
pub use record::{RECORD, claim_in};
