// A claim in 26 bytes.
ghost use Rattle.std.specs.Prelude.{refl};
ghost use Rattle.wire.specs.Claim.{claim_size};
ghost use Rattle.wire.specs.Run.{claim as claim-layout};
ghost use Rattle.wire.specs.Lengths.{length_claim_bytes};

use crate::number::{self, COUNT, KEY};
use crate::run::Laid;
use claims::Claim;

impl Laid for Claim {
    const SIZE: usize = 3 * KEY + COUNT;

    ghost SIZE = { claim_size };

    ghost layout = { claim-layout };

    fn read(s: &[u8], at: usize) -> Claim {
        Claim {
            lo: number::read(s, at, KEY),
            hi: number::read(s, at + KEY, KEY),
            sum: number::read(s, at + 2 * KEY, KEY),
            cnt: number::read(s, at + 3 * KEY, COUNT) as u16,
        }
    }

    fn write(self, out: &mut [u8], at: usize) {
        number::write(out, at, KEY, self.lo);
        number::write(out, at + KEY, KEY, self.hi);
        number::write(out, at + 2 * KEY, KEY, self.sum);
        number::write(out, at + 3 * KEY, COUNT, self.cnt as u64);
    }

    ghost sized = { refl };

    ghost long = { length_claim_bytes };
}
