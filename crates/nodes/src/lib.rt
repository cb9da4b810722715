// Nodes (document 01, "Pending table and beat"): the in-order test of a node, what an image holds, taking a claim into the table, and two nodes in one (document
// 02, slip 9). A beat is in `beats`.
// Each public call takes any content and states its whole result, and every lent place, by an equation with a definition.
#![tactic(auto)]

mod admitting;
mod joining;
mod order;
mod taking;

pub use admitting::admit_in;
pub use joining::join_in;
pub use order::ordered;
pub use taking::{take, take_in};
