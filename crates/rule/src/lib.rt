// The rule of the upper layer (document 01, "A round", "Pending table and beat"): its types, the definitions that the contracts and theorems of the crates
// above cite, and their laws. The code is in those crates.
#![tactic(auto)]

mod answer;
mod delivery;
mod node;

pub use answer::Rest;
pub use delivery::Delivery;
pub use node::{Node, Table};
