// What a rehearsal answers.
use transcript::RECORD;

// How long a number and the space before it, a line and the last line are at most.
const FIELD: usize = 1 + 20;

const LINE: usize = 1 + 4 * FIELD + 1;

const LAST: usize = 4 + FIELD + (6 + FIELD) + (7 + FIELD) + 1;

// Both counts after the round and the number of deliveries.
#[derive(Clone, Copy)]
pub struct Rehearsed {
    pub left: usize,
    pub right: usize,
    pub deliveries: usize,
}

impl Rehearsed {
    // The records that the program lends: a number of its own, whatever a store's limit is.
    pub const RECORDS: usize = 2048;

    // The same in words.
    pub const WORDS: usize = RECORD * Rehearsed::RECORDS;

    // The longest text: a line for each record, each number of it 20 digits, and the last line. Added up here, since a constant calls no function of ours.
    pub const TEXT: usize = LINE * Rehearsed::RECORDS + LAST;
}
