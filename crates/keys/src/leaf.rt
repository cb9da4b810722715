// The leaves: what is asked of lent runs of keys and sums, and what is written to them.
ghost use Rattle.std.specs.Prelude.{◌≡◌, true, ◌≤◌, ◌<◌, ◌+◌, ◌-◌, length, take, drop};
ghost use Rattle.keys.specs.Store.{limit, running_from, running, rising, all_zero, same_keys};
ghost use Rattle.keys.specs.Place.{put_at};
ghost use Rattle.keys.specs.Lent.{sum_before, inserted_at};

use crate::lent::{Both, Place};
use crate::store::Store;

// Whether the keys rise strictly.
pub(crate) fn rising(keys: &[u64]) -> bool
    ensures { result ≡ rising keys.now }
{
    keys.is_sorted_by(|one, next| one < next)
}

// Whether every place is 0. All are looked at, several at a time: nearly always they are.
pub(crate) fn all_zero(places: &[u64]) -> bool
    ensures { result ≡ all_zero places.now }
{
    places.iter().fold(0, |bits, place| bits | *place) == 0
}

// Whether these are the running sums of so many keys. By index: a `zip` asks at each turn whether either run has ended, which takes half as long again.
pub(crate) fn summed(keys: &[u64], sums: &[u64]) -> bool
    requires { length sums.now ≡ length keys.now }
    ensures { result ≡ same_keys sums.now (running keys.now) }
{
    let mut sum = 0;
    for (i, key) in keys.iter().enumerate() {
        sum ^= *key;
        if sums[i] != sum {
            return false;
        }
    }
    true
}

// The sum before a place.
pub(crate) fn sum_before(sums: &[u64], at: usize) -> u64
    requires { at ≤ length sums.now }
    ensures { result ≡ sum_before sums.now at }
{
    if at == 0 { 0 } else { sums[at - 1] }
}

// Works the sums of the keys from a place to the count out, from the sum before them.
pub(crate) fn resum(
    keys: &[u64],
    sums: &mut [u64; Store::LIMIT],
    first: usize,
    count: usize,
    before: u64,
)
    requires { (first ≤ count) × (count ≤ length keys.now) × (count ≤ limit) }
    ensures { sums.new ≡ put_at sums.old first (running_from before (take (count - first) (drop first keys.now))) }
{
    let part = &keys[first..count];
    let mut so_far = before;
    for (i, sum) in sums[first..count].iter_mut().enumerate() {
        so_far ^= part[i];
        *sum = so_far;
    }
}

// Puts `key` in at a place: the keys from there to the count move up by one.
pub(crate) fn put(keys: &mut [u64; Store::LIMIT], at: usize, count: usize, key: u64)
    requires { (at ≤ count) × (count < limit) }
    ensures { keys.new ≡ inserted_at at count key keys.old }
{
    keys.copy_within(at..count, at + 1);
    keys[at] = key;
}

// Puts two keys in at their places: the keys from the place of the greater one to the count move up by two, those between the places by one. No key moves
// twice.
pub(crate) fn put_both(
    keys: &mut [u64; Store::LIMIT],
    places: Both<Place>,
    count: usize,
    lo: u64,
    hi: u64,
)
    requires { (places.lower.at ≤ places.upper.at) × (places.upper.at ≤ count) × (count + 1 < limit) }
    ensures { keys.new ≡ inserted_at (places.upper.at + 1) (count + 1) hi (inserted_at places.lower.at count lo keys.old) }
{
    let at = places.upper.at;
    keys.copy_within(at..count, at + 2);
    keys[at + 1] = hi;
    put(keys, places.lower.at, at, lo);
}
