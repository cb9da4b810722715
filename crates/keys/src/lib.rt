// Keys and the store (document 01, the section of that name): the store, and the calls on a lent run of its keys. What is asked and answered of a
// store is in `claims`, where `enter` is. Each public call takes any content and states its whole result by equations with definitions of specs/.
#![tactic(auto)]

mod leaf;
mod lent;
mod search;
mod store;

pub use lent::{
    Added, Both, LentStore, Place, add_both_in, add_in, ordered_in, place_in, places_in, resum_in,
    summed_in,
};
pub use store::Store;
