// One record of a round's transcript.
use claims::Claim;
use keys::Store;

// The sender is 0 for the left end and 1 for the right one: a number, since a lent record may hold any.
#[derive(Clone, Copy)]
pub struct Delivery {
    pub sender: u8,
    pub claim: Claim,
}

impl Delivery {
    // The records that no round exceeds: twice the keys of the greatest union.
    pub const RECORDS: usize = 2 * Store::LIMIT;

    // The words of a record in a lent run: the sender, then the claim. `record_width` in specs/Call.
    pub const WORDS: usize = 1 + Claim::WORDS;

    // The record of zeros.
    pub const NONE: Delivery = Delivery {
        sender: 0,
        claim: Claim::NONE,
    };
}
