// Numbers as text, in base ten.
ghost use Rattle.std.specs.Prelude.{◌≡◌, ◌+◌, ◌≤◌, length};
ghost use Rattle.keys.specs.Place.{put_at};
ghost use Rattle.text.specs.Decimal.{decimal, digit_limit};
ghost use Rattle.text.specs.Put.{put_from, end_from, put_before, start_before};

use crate::bytes::has_room;
use itoa::write_digits;

// How many digits a number has.
pub(crate) fn digit_count(n: u64) -> usize
    ensures { (result ≡ length (decimal n)) × (result ≤ digit_limit) }
{
    n.max(1).ilog10() as usize + 1
}

// Puts the digits of a number so that they end at a place which has room for them before it, and says where they begin.
pub(crate) fn digits_to(out: &mut [u8], end: usize, n: u64) -> usize
    requires { (length (decimal n) ≤ end) × (end ≤ length out.old) }
    ensures { (result + length (decimal n) ≡ end) × (out.new ≡ put_at out.old result (decimal n)) }
{
    write_digits(n, out, end)
}

// Puts the digits of a number so that they end at a place, and says where they begin; without room it puts nothing, and says the place.
pub fn put_decimal_before(out: &mut [u8], end: usize, n: u64) -> usize
    ensures { (result ≡ start_before out.old end (decimal n))
        × (out.new ≡ put_before out.old end (decimal n)) }
{
    if out.len() < end || end < digit_count(n) {
        return end;
    }
    digits_to(out, end, n)
}

// Puts the digits of a number at a place, and says where they end; without room it puts nothing, and says the place.
pub fn put_decimal(out: &mut [u8], at: usize, n: u64) -> usize
    ensures { (result ≡ end_from out.old at (decimal n))
        × (out.new ≡ put_from out.old at (decimal n)) }
{
    let count = digit_count(n);
    if !has_room(out, at, count) {
        return at;
    }
    let end = at + count;
    digits_to(out, end, n);
    end
}
