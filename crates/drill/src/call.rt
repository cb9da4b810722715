// The calls, by the numbers that requests have for them.
ghost use Rattle.std.specs.Prelude.{◌≡◌};
ghost use Rattle.drill.specs.Call.{needed};

use crate::card;

#[derive(Clone, Copy)]
pub enum Call {
    Enter,
    Make,
    Reply,
    Judge,
    Take,
    Beat,
    RoundWords,
    ReadFrame,
    WriteFrame,
    ReadImage,
    WriteImage,
    ImageLength,
    Ordered,
    Empty,
    RoundRecord,
    WriteSheet,
    OpeningCost,
}

// A number of no call.
#[derive(Clone, Copy)]
pub struct NoSuchCall;

impl TryFrom<u64> for Call {
    type Error = NoSuchCall;

    fn try_from(number: u64) -> Result<Call, NoSuchCall> {
        match number {
            1 => Ok(Call::Enter),
            2 => Ok(Call::Make),
            3 => Ok(Call::Reply),
            4 => Ok(Call::Judge),
            5 => Ok(Call::Take),
            6 => Ok(Call::Beat),
            7 => Ok(Call::RoundWords),
            8 => Ok(Call::ReadFrame),
            9 => Ok(Call::WriteFrame),
            10 => Ok(Call::ReadImage),
            11 => Ok(Call::WriteImage),
            12 => Ok(Call::ImageLength),
            13 => Ok(Call::Ordered),
            14 => Ok(Call::Empty),
            15 => Ok(Call::RoundRecord),
            16 => Ok(Call::WriteSheet),
            17 => Ok(Call::OpeningCost),
            _ => Err(NoSuchCall),
        }
    }
}

impl Call {
    // How many words a call needs, without those that it is lent.
    pub fn needed(self) -> usize
        ensures { result ≡ needed self }
    {
        match self {
            Call::Judge
            | Call::ReadFrame
            | Call::WriteFrame
            | Call::ImageLength
            | Call::OpeningCost => card::LEFT,
            Call::Enter | Call::Make | Call::Reply | Call::Empty | Call::WriteSheet => card::RIGHT,
            Call::Take | Call::Beat | Call::ReadImage | Call::WriteImage | Call::Ordered => {
                card::PAST_NODE
            }
            Call::RoundWords | Call::RoundRecord => card::PAST_BOTH,
        }
    }
}
