// The line of a refusal.
ghost use Rattle.std.specs.Prelude.{◌≡◌};
ghost use Rattle.text.specs.Line.{refused_line};
ghost use Rattle.text.specs.Put.{put_from, end_from};

use crate::digits::{digit_count, digits_to};

// `refused` and a space.
const WORD: usize = 8;

// Puts the line of a refusal to the front of a buffer, and says how long it is; without room it puts nothing, and says 0.
// It takes a number and no `Refusal`: this crate stands below what is refused.
pub fn put_refused(out: &mut [u8], number: u8) -> usize
    ensures { (result ≡ end_from out.old 0 (refused_line number))
        × (out.new ≡ put_from out.old 0 (refused_line number)) }
{
    let number = u64::from(number);
    let end = WORD + digit_count(number);
    if out.len() <= end {
        return 0;
    }
    out[..WORD].copy_from_slice(b"refused ");
    digits_to(out, end, number);
    out[end] = b'\n';
    end + 1
}
