// Numbers in bytes, high byte first, read from and written to a place of a slice: one function each for every width.
ghost use Rattle.std.specs.Prelude.{◌≡◌, ◌+◌, ◌≤◌, length, refl};
ghost use Rattle.keys.specs.Place.{put_at};
ghost use Rattle.wire.specs.Number.{bytes, number_at};
ghost use Rattle.wire.specs.Claim.{key_width};
ghost use Rattle.wire.specs.Run.{key as key-layout};
ghost use Rattle.wire.specs.Lengths.{length_bytes};

use crate::run::Laid;

// The width of a key or a sum, and that of a count, in bytes.
pub(crate) const KEY: usize = 8;

pub(crate) const COUNT: usize = 2;

// The number of `width` bytes at a place.
pub(crate) fn read(s: &[u8], at: usize, width: usize) -> u64
    requires { (at + width ≤ length s.now) × (width ≤ key_width) }
    ensures { result ≡ number_at s.now at width }
{
    let mut word = [0; KEY];
    word[KEY - width..].copy_from_slice(&s[at..at + width]);
    u64::from_be_bytes(word)
}

// Write the lowest `width` bytes of a number at a place.
pub(crate) fn write(out: &mut [u8], at: usize, width: usize, x: u64)
    requires { (at + width ≤ length out.old) × (width ≤ key_width) }
    ensures { out.new ≡ put_at out.old at (bytes width x) }
{
    let word = x.to_be_bytes();
    out[at..at + width].copy_from_slice(&word[KEY - width..]);
}

// A key or a sum.
impl Laid for u64 {
    const SIZE: usize = KEY;

    ghost SIZE = { key_width };

    ghost layout = { key-layout };

    fn read(s: &[u8], at: usize) -> u64 {
        read(s, at, KEY)
    }

    fn write(self, out: &mut [u8], at: usize) {
        write(out, at, KEY, self)
    }

    ghost sized = { refl };

    ghost long = { length_bytes key_width };
}
