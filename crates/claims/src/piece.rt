// Some keys of a store whose parts are lent, the claim that they make, and the answer by them.
ghost use Rattle.std.specs.Prelude.{◌≡◌, true, false, ◌≤◌, IfSome, IfNone};
ghost use Rattle.keys.specs.Lent.{store_lent};
ghost use Rattle.claims.specs.Answer.{said};
ghost use Rattle.claims.specs.Lent.{sum_at, claim_by, within, Positions, help_in, answer_at};

use crate::answer::Answer;
use crate::claim::Claim;
use keys::{LentStore, Store};

// The keys at the positions first to last, with the sums beside them.
#[derive(Clone, Copy)]
pub(crate) struct Piece<'a> {
    pub(crate) keys: &'a [u64],
    pub(crate) sums: &'a [u64],
    pub(crate) first: usize,
    pub(crate) last: usize,
    ghost positions: { Positions keys.now sums.now first last },
}

impl<'a> Piece<'a> {
    // The keys at first to last, if these are positions of keys and sums.
    pub(crate) fn within(store: LentStore<'a>, first: usize, last: usize) -> Option<Piece<'a>>
        ensures none { IfNone result (within (store_lent store.entry) first last ≡ false) }
        ensures some { IfSome result (λ p. (within (store_lent store.entry) first last ≡ true)
            × (p.keys.now ≡ store.entry.keys.now) × (p.sums.now ≡ store.entry.sums.now) × (p.first ≡ first) × (p.last ≡ last)) }
    {
        if first <= last
            && last < store.count
            && store.count <= store.keys.len()
            && store.count <= store.sums.len()
            && store.count <= Store::LIMIT
        {
            return Some(Piece {
                keys: store.keys,
                sums: store.sums,
                first,
                last,
            });
        }
        None
    }

    // The sum of its keys: of all up to the last, without those before the first.
    fn sum(self) -> u64
        ensures { result ≡ sum_at self.entry.sums.now self.entry.first self.entry.last }
    {
        if self.first == 0 {
            return self.sums[self.last];
        }
        self.sums[self.last] ^ self.sums[self.first - 1]
    }

    // Its claim.
    pub(crate) fn claim(self) -> Claim
        ensures { result ≡ claim_by self.entry.keys.now self.entry.sums.now self.entry.first self.entry.last }
    {
        Claim {
            cnt: (self.last - self.first + 1) as u16,
            lo: self.keys[self.first],
            hi: self.keys[self.last],
            sum: self.sum(),
        }
    }

    // The claim of positions within it.
    fn inner(self, first: usize, last: usize) -> Claim
        requires { (first ≤ last) × (last ≤ self.last) }
        ensures { result ≡ claim_by self.entry.keys.now self.entry.sums.now first last }
    {
        let part = Piece {
            keys: self.keys,
            sums: self.sums,
            first,
            last,
        };
        part.claim()
    }

    // The claims that help where lo and hi stand at its ends.
    fn help(self) -> Answer
        ensures { said result ≡ help_in self.entry.keys.now self.entry.sums.now self.entry.first self.entry.last }
    {
        if self.last <= self.first + 1 {
            return Answer::Match;
        }
        let a = self.first + 1;
        let b = self.last - 1;
        if b - a < 3 {
            return Answer::One(self.inner(a, b));
        }
        let end = a + (b + 1 - a) / 2;
        Answer::Two(self.inner(a, end), self.inner(end + 1, b))
    }

    // The answer to a claim whose lo and hi stand at its ends.
    pub(crate) fn answer(self, claim: Claim) -> Answer
        ensures { said result ≡ answer_at self.entry.keys.now self.entry.sums.now self.entry.first self.entry.last claim }
    {
        let own = self.claim();
        if own == claim {
            return Answer::Match;
        }
        if own.cnt < claim.cnt {
            return Answer::Ask(own);
        }
        self.help()
    }
}
