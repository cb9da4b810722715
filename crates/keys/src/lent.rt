// The calls on a lent run of keys, for the crates above: no store is copied and question 1 is not put again.
// Each is total, and says by a definition of specs/Lent what it does to any content: so a count stands beside a run, which may have fewer places.
ghost use Rattle.std.specs.Prelude.{◌≡◌, ◌+◌, ◌≤◌, ◌<◌, length, get_or};
ghost use Rattle.keys.specs.Store.{limit};
ghost use Rattle.keys.specs.Lent.{ordered_in, summed_in, resummed, place_at, place_in};
ghost use Rattle.keys.specs.Lent.{lacking, put_in, put_two, store_with, grown_with, add_two, add_in, add_both_in};

use crate::leaf::{all_zero, put, put_both, resum, rising, sum_before, summed};
use crate::search::{NEAR, both_quartered, far, far_both, quartered};
use crate::store::Store;

// Where a key stands, or would stand. The position counts whether or not the key is held: as an Option or a Result it would be taken apart at each use.
#[derive(Clone, Copy)]
pub struct Place {
    pub at: usize,
    pub held: bool,
}

impl Place {
    // Where nothing is searched.
    const NONE: Place = Place { at: 0, held: false };
}

// What is told of two keys: of the lesser one, and of the greater one.
#[derive(Clone, Copy)]
pub struct Both<T> {
    pub lower: T,
    pub upper: T,
}

// Keys added: the count then, and where the lesser and the greater one stand.
#[derive(Clone, Copy)]
pub struct Added {
    pub count: usize,
    pub first: usize,
    pub last: usize,
}

// A store whose parts are lent. Of keys and sums all places are, since question 1 asks of those past the count too.
#[derive(Clone, Copy)]
pub struct LentStore<'a> {
    pub keys: &'a [u64],
    pub sums: &'a [u64],
    pub count: usize,
}

// Whether the run, with its count, is that of a store in order. One test after the other, here and below: where `||` joins them, a proof has to take apart
// how each join was reached.
pub fn ordered_in(keys: &[u64], count: usize) -> bool
    ensures { result ≡ ordered_in keys.now count }
{
    if Store::LIMIT < count {
        return false;
    }
    if keys.len() < count {
        return false;
    }
    if !rising(&keys[..count]) {
        return false;
    }
    all_zero(&keys[count..])
}

// Question 1 of a store, whose keys and sums are lent.
pub fn summed_in(store: LentStore) -> bool
    ensures { result ≡ summed_in store.entry.keys.now store.entry.sums.now store.entry.count }
{
    let LentStore { keys, sums, count } = store;
    if !ordered_in(keys, count) {
        return false;
    }
    if sums.len() < count {
        return false;
    }
    if !summed(&keys[..count], &sums[..count]) {
        return false;
    }
    all_zero(&sums[count..])
}

// Works the sums of the keys from `first` to the count out anew, if there are such places.
pub fn resum_in(keys: &[u64], sums: &mut [u64; Store::LIMIT], first: usize, count: usize)
    ensures { sums.new ≡ resummed keys.now sums.old first count }
{
    if count <= first {
        return;
    }
    if keys.len() < count {
        return;
    }
    if Store::LIMIT < count {
        return;
    }
    let before = sum_before(&sums[..], first);
    resum(keys, sums, first, count, before);
}

// The place of a key, from the position that was found for it.
fn place_at(keys: &[u64], at: usize, key: u64) -> Place
    requires { at < length keys.now }
    ensures { result ≡ place_at at (get_or keys.now at 0) key }
{
    let found = keys[at];
    if found < key {
        let next = at + 1;
        Place {
            at: next,
            held: false,
        }
    } else {
        Place {
            at,
            held: found == key,
        }
    }
}

// The place of a key in any run, also where nothing is searched and where there are more keys than 16-bit positions are enough for. Not inlined, so that
// `place_in` is.
#[inline(never)]
fn far_place(keys: &[u64], count: usize, key: u64) -> Place
    ensures { result ≡ place_in keys.now count key }
{
    if count == 0 || keys.len() < count {
        return Place::NONE;
    }
    place_at(keys, far(keys, count, key), key)
}

// Of a run as a store has it: the rest is left to `far_place`, to which the run is lent anew, so that the usual way keeps it in registers.
pub fn place_in(keys: &[u64], count: usize, key: u64) -> Place
    ensures { result ≡ place_in keys.now count key }
{
    if count == 0 || NEAR < count || keys.len() < count {
        return far_place(&keys[..], count, key);
    }
    let at = quartered(keys, count as u16, key);
    place_at(keys, at as usize, key)
}

// The places of two keys, as `far_place` has that of one; not inlined either, so that `places_in` is.
#[inline(never)]
fn far_places(keys: &[u64], count: usize, lo: u64, hi: u64) -> Both<Place>
    ensures { (result.lower ≡ place_in keys.now count lo) × (result.upper ≡ place_in keys.now count hi) }
{
    if count == 0 || keys.len() < count {
        return Both {
            lower: Place::NONE,
            upper: Place::NONE,
        };
    }
    let found = far_both(keys, count, lo, hi);
    Both {
        lower: place_at(keys, found.lower, lo),
        upper: place_at(keys, found.upper, hi),
    }
}

// The places of two keys, found side by side; otherwise as `place_in`.
pub fn places_in(keys: &[u64], count: usize, lo: u64, hi: u64) -> Both<Place>
    ensures { (result.lower ≡ place_in keys.now count lo) × (result.upper ≡ place_in keys.now count hi) }
{
    if count == 0 || NEAR < count || keys.len() < count {
        return far_places(&keys[..], count, lo, hi);
    }
    let found = both_quartered(keys, keys, count as u16, lo, hi);
    Both {
        lower: place_at(keys, found.lower as usize, lo),
        upper: place_at(keys, found.upper as usize, hi),
    }
}

fn put_in(keys: &mut [u64; Store::LIMIT], place: Place, count: usize, key: u64)
    requires { (place.at ≤ count) × (count + lacking place ≤ limit) }
    ensures { keys.new ≡ put_in place count key keys.old }
{
    let at = place.at;
    if !place.held {
        put(keys, at, count, key);
    }
}

// How many keys are missing at a place: 0 or 1.
fn lacking(place: Place) -> usize
    ensures { (result ≡ lacking place) × (result ≤ 1) }
{
    usize::from(!place.held)
}

// Enters one key.
pub fn add_in(keys: &mut [u64; Store::LIMIT], count: usize, key: u64) -> Option<Added>
    ensures { grown_with keys.new count result ≡ add_in (store_with keys.old count) key }
{
    let place = place_in(&keys[..], count, key);
    let more = lacking(place);
    if Store::LIMIT - more < count {
        return None;
    }
    put_in(keys, place, count, key);
    let total = count + more;
    Some(Added {
        count: total,
        first: place.at,
        last: place.at,
    })
}

// Puts two keys in at their places, unless they are held.
fn put_two(keys: &mut [u64; Store::LIMIT], places: Both<Place>, count: usize, lo: u64, hi: u64)
    requires { (places.lower.at ≤ places.upper.at) × (places.upper.at ≤ count) × (count + (lacking places.lower + lacking places.upper) ≤ limit) }
    ensures { keys.new ≡ put_two places.lower places.upper count lo hi keys.old }
{
    let Both { lower, upper } = places;
    if lower.held {
        put_in(keys, upper, count, hi);
        return;
    }
    if upper.held {
        put_in(keys, lower, count, lo);
        return;
    }
    put_both(keys, places, count, lo, hi);
}

// Enters two keys at their places.
fn add_two(
    keys: &mut [u64; Store::LIMIT],
    places: Both<Place>,
    count: usize,
    lo: u64,
    hi: u64,
) -> Option<Added>
    requires { (places.lower.at ≤ count) × (places.upper.at ≤ count) }
    ensures { grown_with keys.new count result ≡ add_two places.lower places.upper lo hi (store_with keys.old count) }
{
    let Both { lower, upper } = places;
    let below = lacking(lower);
    let above = lacking(upper);
    let most = Store::LIMIT - (below + above);
    if most < count {
        return None;
    }
    if upper.at < lower.at {
        return None;
    }
    put_two(keys, places, count, lo, hi);
    let last = upper.at + below;
    let total = count + below + above;
    Some(Added {
        count: total,
        first: lower.at,
        last,
    })
}

// Enters two keys, or one where they are equal.
pub fn add_both_in(keys: &mut [u64; Store::LIMIT], count: usize, lo: u64, hi: u64) -> Option<Added>
    ensures { grown_with keys.new count result ≡ add_both_in (store_with keys.old count) lo hi }
{
    if lo == hi {
        return add_in(keys, count, lo);
    }
    let places = places_in(&keys[..], count, lo, hi);
    add_two(keys, places, count, lo, hi)
}
