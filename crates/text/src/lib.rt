// Text in a lent buffer: numbers in base ten, words, and the line of a refusal, for every program and call that lays out lines. Each call takes any buffer
// and any place, and puts a text whole or not at all: definitions in specs/. There too are things in groups, of which lines and frames are made.
// Where there is no room a call says the place that it was given: each caller has asked for room, and an Option would be unwrapped each time.
#![tactic(auto)]

mod bytes;
mod digits;
mod refused;

pub use bytes::put_bytes;
pub use digits::{put_decimal, put_decimal_before};
pub use refused::put_refused;
