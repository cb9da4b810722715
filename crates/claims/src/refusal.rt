// Refusals: the question of document 01 or 02 that was answered no, by the number that README's table gives it.
ghost use Rattle.std.specs.Prelude.{◌≡◌};
ghost use Rattle.claims.specs.Refusal.{refusal_number};

use keys::Store;
use std::error::Error;
use std::fmt;

#[derive(Clone, Copy, Debug, PartialEq, Eq)]
pub enum Refusal {
    OutOfOrder = 1,
    LoAboveHi = 2,
    CountBeyondLimit = 3,
    CountBeyondSpan = 4,
    WrongSum = 5,
    NoRoom = 6,
    NoPositions = 7,
    UnionBeyondLimit = 8,
    TranscriptTooShort = 9,
    NoFrame = 10,
    OtherVersion = 11,
    WrongFrameLength = 12,
    BadClaimInFrame = 13,
    WrongImageLength = 14,
    OutputTooShort = 15,
    MiddleOutside = 16,
    TooManyKeys = 17,
}

impl Refusal {
    // The number of the question. A method and no `From`: at a call its name says which number is meant.
    pub fn number(self) -> u8
        ensures { result ≡ refusal_number self }
    {
        self as u8
    }
}

// In the words of README's table. The most keys of a store are told by their constant.
impl fmt::Display for Refusal {
    fn fmt<W: fmt::Write>(&self, f: &mut fmt::Formatter<W>) -> fmt::Result {
        let most = Store::LIMIT;
        f.write_str(match self {
            Refusal::OutOfOrder => "a store, a node or an image's contents are out of order",
            Refusal::LoAboveHi => "a claim's lo is greater than its hi",
            Refusal::CountBeyondLimit => return write!(f, "a claim's cnt is not from 1 to {most}"),
            Refusal::CountBeyondSpan =>
                "a claim's cnt is not 1 though lo = hi, or else not from 2 to hi − lo + 1",
            Refusal::WrongSum =>
                "a claim's sum is not lo though cnt is 1, or not lo XOR hi though cnt is 2",
            Refusal::NoRoom => return write!(
                f,
                "the keys to add don't fit: the store would have more than {most}"
            ),
            Refusal::NoPositions =>
                "the first position is after the last, or the last is not below the count",
            Refusal::UnionBeyondLimit => return write!(
                f,
                "the two stores or images together hold more than {most} keys"
            ),
            Refusal::TranscriptTooShort =>
                "the transcript has fewer than two records for each key of the union",
            Refusal::NoFrame => "the frame has fewer than 4 bytes or doesn't begin with hex 4C 43",
            Refusal::OtherVersion => "the frame's version is not 1",
            Refusal::WrongFrameLength =>
                "the frame's n is not from 1 to 4, or its length is not 4 + 26n",
            Refusal::BadClaimInFrame => "a claim in the frame doesn't pass questions 2 to 5 and 16",
            Refusal::WrongImageLength => return write!(
                f,
                "the image's counts exceed {most} or 64, or its length is not theirs"
            ),
            Refusal::OutputTooShort => "a lent output is too short",
            Refusal::MiddleOutside =>
                "a claim's cnt is 3 though sum XOR lo XOR hi is not strictly between lo and hi",
            Refusal::TooManyKeys => "the number of keys is more than a store can hold",
        })
    }
}

impl Error for Refusal {}
