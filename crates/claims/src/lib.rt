// The lower library: claims and the reply to one claim (document 01, "Claims", "The reply to one claim"); the store comes with it from `keys`.
// Each public call takes any content and states its whole result by one equation with a definition of specs/.
#![tactic(auto)]

mod answer;
mod calls;
mod claim;
mod lent;
mod piece;
mod refusal;

pub use answer::Answer;
pub use calls::{enter, make, reply};
pub use claim::{Claim, judge, judge_formerly, tells};
pub use keys::{Added, LentStore, Store};
pub use lent::{Told, answer_in, hear_in, make_in, reply_in};
pub use refusal::Refusal;
