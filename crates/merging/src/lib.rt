// Two runs of keys in one: how many keys it has, which question 8 asks of a round and of a joining, and the run itself. A crate of its own, below all that ask;
// two tables are merged by the same laws in `nodes`.
#![tactic(auto)]

mod runs;

pub use runs::{merge_in, union_count_in};
