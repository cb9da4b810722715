// Keys and the store.
ghost use Rattle.std.specs.Prelude.{◌≡◌, true};
ghost use Rattle.keys.specs.Store.{empty_store, in_order};
ghost use Rattle.keys.specs.Lent.{renewed_from};

use crate::lent::{LentStore, resum_in};

// A count from 0 to the limit, and the places: a key in each, and beside it the XOR of all keys up to and with that place. In order: the count is at most
// the limit, the keys below it rise strictly, the sums beside them are theirs, every other place is 0 and so is the sum beside it.
// Two arrays and a count: the memory is fixed, there is no heap; and the sums are apart since a search reads keys alone.
#[derive(Clone, Copy)]
pub struct Store {
    pub keys: [u64; Store::LIMIT],
    pub sums: [u64; Store::LIMIT],
    pub count: usize,
}

impl Store {
    pub const LIMIT: usize = 2048;

    pub const EMPTY: Store = Store {
        keys: [0; Store::LIMIT],
        sums: [0; Store::LIMIT],
        count: 0,
    };

    // Works the sums from a place on out anew.
    pub fn renew(&mut self, first: usize)
        ensures { self.new ≡ renewed_from first self.old }
    {
        resum_in(&self.keys, &mut self.sums, first, self.count);
    }

    // The store, its parts lent.
    pub fn lent(&self) -> LentStore<'_>
        ensures { (result.keys.now ≡ self.now.keys) × (result.sums.now ≡ self.now.sums) × (result.count ≡ self.now.count) }
    {
        LentStore {
            keys: &self.keys,
            sums: &self.sums,
            count: self.count,
        }
    }

    // The empty store, in order: the call of document 01. `EMPTY` is the same for code that needs a constant.
    pub fn empty() -> Store
        ensures { (result ≡ empty_store) × (in_order result ≡ true) }
    {
        Store::EMPTY
    }
}
