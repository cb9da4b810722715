// For tests and measurements alone: the calls of `searches`, for programs in other languages. No daemon links it.
#![tactic(auto)]

ghost use Rattle.std.specs.Prelude.{◌≡◌, ◌+◌, ◌<◌, ◌^◌, leb, length};
ghost use Rattle.keys.specs.Lent.{place_in};
ghost use Rattle.searches.specs.Told.{told_place, told_places};

// The place of a key among the first `count` keys.
#[unsafe(no_mangle)]
pub extern "C" fn minutefrost_place_in(keys: &[u64], count: usize, key: u64) -> usize
    ensures { result ≡ told_place (place_in keys.now count key) }
{
    searches::minutefrost_place_in(keys, count, key)
}

// The places of two keys, in the first two places of `told`; where these are not lent, false, and nothing is written.
#[unsafe(no_mangle)]
pub extern "C" fn minutefrost_places_in(
    keys: &[u64],
    count: usize,
    lo: u64,
    hi: u64,
    told: &mut [usize],
) -> bool
    ensures { (result ≡ leb 2 (length told.old))
        × (told.new ≡ told_places keys.now count lo hi told.old) }
{
    searches::minutefrost_places_in(keys, count, lo, hi, told)
}
