// The upper library (document 01, "A round", "Pending table and beat"): a round of two stores over records; the round on words, the calls on nodes
// and the types come with it from `transcript`, `nodes`, `beats` and `rule`.
// Each public call takes any content and states its whole result, and every lent place, by an equation with a definition.
#![tactic(auto)]

mod log;

pub use beats::beat;
pub use log::{Recorded, get, put, round, round_record};
pub use nodes::{ordered, take};
pub use rule::{Delivery, Node, Table};
pub use transcript::round_words;
