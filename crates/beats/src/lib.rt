// The beat of a node (document 01, "Pending table and beat").
// Each public call takes any content and states its whole result, and every lent place, by an equation with a definition.
#![tactic(auto)]

mod beats;

pub use beats::{beat, beat_in};
