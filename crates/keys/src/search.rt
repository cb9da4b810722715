// "The search for a key's position works inside with 16-bit positions, however it is done now, and widens one only to index a place or to answer. Its
// promise, and everything seen by a caller, remains as it was." (document 02, slip 3). The promise is `quartered` (specs/Lent), among the first keys of a
// lent run. A run may have more keys than 16 bits count, though no store has: then the first turns narrow it to a part in which they are enough (`far`,
// `far_both`).
ghost use Rattle.std.specs.Prelude.{◌≡◌, cond, leb, ◌≤◌, ◌<◌, ◌+◌, ◌*◌, ◌^◌, length, get_or, drop};
ghost use Rattle.keys.specs.Lent.{halved, quarter_of, quartered};

use crate::lent::Both;

// The most keys that 16-bit positions are enough for.
pub(crate) const NEAR: usize = u16::MAX as usize;

// One place further where the key there is at most `key`. By a sum, which stays one: the compiler turns an `if` into a branch, and no processor can foresee
// which way a search goes.
fn step(part: &[u64], at: u16, key: u64) -> u16
    requires { (at + 1 < length part.now) × (at + 1 < 2 ^ 16) }
    ensures { (result ≡ halved 2 part.now key at 2) × (result ≤ at + 1) }
{
    let next = at + 1;
    at + u16::from(part[next as usize] <= key)
}

// The last of the first `count` keys that is at most `key`, if they rise; the first one if none is. They are at most three, and half of two or three is one.
fn halved(part: &[u64], count: u16, key: u64) -> u16
    requires { (0 < count) × (count < 4) × (count ≤ length part.now) }
    ensures { result ≡ halved count part.now key 0 count }
{
    if count < 2 {
        return 0;
    }
    let second = step(part, 0, key);
    if count < 3 {
        return second;
    }
    step(part, second, key)
}

// How many of three places hold a key that is at most `key`. The three are read without waiting for each other. Who calls it works them out, in 16 bits where
// these are enough.
fn reached(part: &[u64], second: usize, third: usize, fourth: usize, key: u64) -> u16
    requires { (second < length part.now) × (third < length part.now) × (fourth < length part.now) }
    ensures { (result ≡ cond (leb (get_or part.now second 0) key) 1 0 + cond (leb (get_or part.now third 0) key) 1 0
        + cond (leb (get_or part.now fourth 0) key) 1 0)
        × (result ≤ 3) }
{
    u16::from(part[second] <= key) + u16::from(part[third] <= key) + u16::from(part[fourth] <= key)
}

// How many keys stand before the quarter that is kept, of four of `width` keys each: as many of the last three are passed as begin with a key that is at
// most `key`. The product stays one, since what it multiplies is no bit.
fn passed(part: &[u64], width: u16, key: u64) -> u16
    requires { (3 * width < length part.now) × (3 * width < 2 ^ 16) }
    ensures { (result ≡ width * quarter_of part.now key 0 width) × (result ≤ 3 * width) }
{
    let third = width + width;
    let fourth = third + width;
    width * reached(part, width as usize, third as usize, fourth as usize, key)
}

// A search that is under way: the part of the run that is left, where it begins, and the key that is sought.
#[derive(Clone, Copy)]
struct Search<'a> {
    part: &'a [u64],
    at: u16,
    key: u64,
}

impl Search<'_> {
    // What is left of it once the quarters before the one that is kept are passed, of four of `width` keys each. The part is narrowed, and no base is added
    // to a place: so the three places that are read are worked out once for two searches side by side.
    fn narrowed(self, width: u16) -> Self
        requires { (3 * width < length self.part.now) × (self.at + 3 * width < 2 ^ 16) }
        ensures { let more = width * quarter_of self.entry.part.now self.entry.key 0 width in (result.part.now ≡ drop more self.entry.part.now)
            × (result.at ≡ self.entry.at + more) × (result.key ≡ self.entry.key) }
    {
        let more = passed(self.part, width, self.key);
        Search {
            part: &self.part[more as usize..],
            at: self.at + more,
            key: self.key,
        }
    }

    // The position that is found, of the last few keys.
    fn found(self, size: u16) -> u16
        requires { (0 < size) × (size < 4) × (size ≤ length self.part.now) × (self.at + size ≤ 2 ^ 16) }
        ensures { result ≡ self.entry.at + halved size self.entry.part.now self.entry.key 0 size }
    {
        self.at + halved(self.part, size, self.key)
    }
}

// The last of the first `count` keys that is at most `key`, if they rise; the first one if none is. Four ways at a time: the three keys of a turn are
// read without waiting for each other, so there are half as many turns that wait as by halving alone.
pub(crate) fn quartered(keys: &[u64], count: u16, key: u64) -> u16
    requires { (0 < count) × (count ≤ length keys.now) }
    ensures { result ≡ quartered count keys.now key 0 count }
{
    let mut search = Search {
        part: keys,
        at: 0,
        key,
    };
    let mut size = count;
    while 3 < size {
        let width = size / 4;
        search = search.narrowed(width);
        size -= 3 * width;
    }
    search.found(size)
}

// What `quartered` finds, for two keys, each in a run of its own: one loop, since what is left has as many keys for one as for the other, and neither search
// waits for the other. It stays beside the loop for one key: one loop over a const number of keys takes 6 % longer for two. Not inlined, so that its callers
// are.
#[inline(never)]
pub(crate) fn both_quartered(lows: &[u64], highs: &[u64], count: u16, lo: u64, hi: u64) -> Both<u16>
    requires { (0 < count) × (count ≤ length lows.now) × (count ≤ length highs.now) }
    ensures { (result.lower ≡ quartered count lows.now lo 0 count) × (result.upper ≡ quartered count highs.now hi 0 count) }
{
    let mut lower = Search {
        part: lows,
        at: 0,
        key: lo,
    };
    let mut upper = Search {
        part: highs,
        at: 0,
        key: hi,
    };
    let mut size = count;
    while 3 < size {
        let width = size / 4;
        lower = lower.narrowed(width);
        upper = upper.narrowed(width);
        size -= 3 * width;
    }
    Both {
        lower: lower.found(size),
        upper: upper.found(size),
    }
}

// What `quartered` finds for one key, in a run of any length: the first turns, whose positions may need more than 16 bits, come to a part in which those
// are enough.
pub(crate) fn far(keys: &[u64], count: usize, key: u64) -> usize
    requires { (0 < count) × (count ≤ length keys.now) }
    ensures { result ≡ quartered count keys.now key 0 count }
{
    let mut at = 0;
    let mut size = count;
    while NEAR < size {
        let width = size / 4;
        let third = width + width;
        let fourth = third + width;
        let up = reached(&keys[at..], width, third, fourth, key);
        at += width * up as usize;
        size -= 3 * width;
    }
    at + quartered(&keys[at..], size as u16, key) as usize
}

// What `far` finds, for two keys: their parts are narrowed side by side, as `both_quartered` narrows them. One after the other they take up to 1.8 times as
// long.
pub(crate) fn far_both(keys: &[u64], count: usize, lo: u64, hi: u64) -> Both<usize>
    requires { (0 < count) × (count ≤ length keys.now) }
    ensures { (result.lower ≡ quartered count keys.now lo 0 count) × (result.upper ≡ quartered count keys.now hi 0 count) }
{
    let mut first = 0;
    let mut last = 0;
    let mut size = count;
    while NEAR < size {
        let width = size / 4;
        let third = width + width;
        let fourth = third + width;
        let below = reached(&keys[first..], width, third, fourth, lo);
        let above = reached(&keys[last..], width, third, fourth, hi);
        first += width * below as usize;
        last += width * above as usize;
        size -= 3 * width;
    }
    let found = both_quartered(&keys[first..], &keys[last..], size as u16, lo, hi);
    Both {
        lower: first + found.lower as usize,
        upper: last + found.upper as usize,
    }
}
