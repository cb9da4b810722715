// For tests and measurements alone: the search of a lent run of keys as calls for programs in other languages, to which `searches_c` exports them.
// Each call takes any content, and states its whole result and every lent place by equations with the definitions of specs/Told.
#![tactic(auto)]

ghost use Rattle.std.specs.Prelude.{◌≡◌, ◌+◌, ◌<◌, ◌^◌, leb, length};
ghost use Rattle.keys.specs.Lent.{place_in};
ghost use Rattle.searches.specs.Told.{told_place, told_places};

use keys::{Place, place_in, places_in};

// A place as one number. It fits, since a position is at most the number of keys in a run, and a run has fewer than 2^60 of them.
fn told_place(place: Place) -> usize
    requires { place.at + place.at + 1 < 2 ^ 64 }
    ensures { result ≡ told_place place }
{
    place.at + place.at + usize::from(place.held)
}

// The place of a key among the first `count` keys.
pub fn minutefrost_place_in(keys: &[u64], count: usize, key: u64) -> usize
    ensures { result ≡ told_place (place_in keys.now count key) }
{
    let place = place_in(keys, count, key);
    told_place(place)
}

// The places of two keys, in the first two places of `told`; where these are not lent, false, and nothing is written.
pub fn minutefrost_places_in(
    keys: &[u64],
    count: usize,
    lo: u64,
    hi: u64,
    told: &mut [usize],
) -> bool
    ensures { (result ≡ leb 2 (length told.old))
        × (told.new ≡ told_places keys.now count lo hi told.old) }
{
    if told.len() < 2 {
        return false;
    }
    let places = places_in(keys, count, lo, hi);
    told[0] = told_place(places.lower);
    told[1] = told_place(places.upper);
    true
}
