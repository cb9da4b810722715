// Two runs of keys, walked at once. Where both rise, the lesser of the two first keys is the next of the union, and equal ones are one.
ghost use Rattle.std.specs.Prelude.{◌≡◌, ◌+◌, ◌≤◌, ◌<◌, ltb, length};
ghost use Rattle.keys.specs.Store.{limit};
ghost use Rattle.keys.specs.Place.{put_at};
ghost use Rattle.merging.specs.Merge.{merged, merged_in, OneDone};

use keys::Store;

// How far a walk came: the keys passed of the one run and of the other, and the keys of both that these are.
#[derive(Clone, Copy)]
struct Reached {
    one: usize,
    other: usize,
    both: usize,
}

// Walks over two runs until one is done. Each key of both goes to the next place of a third run; one without places has room for none, and then they are only
// counted. Two that meet hold mostly the same keys, so equal ones come first. Two indices, which go on at different steps: no iterator merges.
// A closure in place of the third run would have to say what the run holds after each key.
fn walk<const PLACES: usize>(one: &[u64], other: &[u64], into: &mut [u64; PLACES]) -> Reached
    requires { 0 < PLACES → length (merged ltb one.now other.now) ≤ PLACES }
    ensures { OneDone PLACES one.now other.now into.old into.new result }
{
    let mut i = 0;
    let mut j = 0;
    let mut n = 0;
    while i < one.len() && j < other.len() {
        let a = one[i];
        let b = other[j];
        if 0 < PLACES {
            into[n] = a.min(b);
        }
        if a == b {
            i += 1;
            j += 1;
        } else if a < b {
            i += 1;
        } else {
            j += 1;
        }
        n += 1;
    }
    Reached {
        one: i,
        other: j,
        both: n,
    }
}

// How many keys two runs have once they are merged.
pub fn union_count_in(one: &[u64], other: &[u64]) -> usize
    ensures { result ≡ length (merged ltb one.now other.now) }
{
    let reached = walk(one, other, &mut []);
    reached.both + (one.len() - reached.one) + (other.len() - reached.other)
}

// Copies a run of keys to a place that has room for it.
fn copy_to(into: &mut [u64], at: usize, run: &[u64])
    requires { at + length run.now ≤ length into.old }
    ensures { into.new ≡ put_at into.old at run.now }
{
    into[at..at + run.len()].copy_from_slice(run);
}

// Writes two runs, merged, to the front of a third that has room for them. Of one that is done nothing is left to copy.
fn write_merged(one: &[u64], other: &[u64], into: &mut [u64; Store::LIMIT])
    requires { length (merged ltb one.now other.now) ≤ limit }
    ensures { into.new ≡ put_at into.old 0 (merged ltb one.now other.now) }
{
    let Reached {
        one: i,
        other: j,
        both: n,
    } = walk(one, other, into);
    copy_to(into, n, &one[i..]);
    copy_to(into, n + (one.len() - i), &other[j..]);
}

// Merges two runs into a third, and returns how many keys that makes. Where they are too many for it, nothing is written. The count and no Option, since it is
// told then too.
pub fn merge_in(one: &[u64], other: &[u64], into: &mut [u64; Store::LIMIT]) -> usize
    ensures { (result ≡ length (merged ltb one.now other.now))
        × (into.new ≡ merged_in one.now other.now into.old) }
{
    let count = union_count_in(one, other);
    if count <= into.len() {
        write_merged(one, other, into);
    }
    count
}
