// What the rehearsal program decides and prints (document 01, "Rehearsal program"): the program itself only reads and writes.
// Each public call takes any input and states its whole result, and every lent place, by an equation with a definition of specs/.
#![tactic(auto)]

mod answer;
mod page;
mod run;
mod timed;

pub use answer::Rehearsed;
pub use page::rehearse_text;
pub use run::rehearse;
pub use timed::minutefrost_timed_round;
