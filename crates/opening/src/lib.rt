// What a new kiosk costs (document 02, slip 5): the deliveries of a round that fills an empty store.
#![tactic(auto)]

ghost use Rattle.std.specs.Prelude.{◌≡◌};
ghost use Rattle.opening.specs.Cost.{opening_cost};
ghost use Rattle.opening.specs.Call.{costed_by, costed};

use claims::Refusal;
use keys::Store;

// How many deliveries fill an empty store with n keys: at most n, so that no sum overflows. From six keys on it calls itself for at most half as many, so
// that no call is deep.
fn deliveries(n: usize) -> usize
    ensures { result ≡ opening_cost n }
{
    match n {
        0 => 0,
        1..=3 => 1,
        4 | 5 => 2 + deliveries(n - 2),
        _ => {
            let z = (n - 2) / 2;
            2 + deliveries(z + 1) + deliveries(n - 3 - z)
        }
    }
}

// The deliveries of a round between an empty left store and a right store of n keys. Asks 17.
pub fn opening_cost(n: usize) -> Result<usize, Refusal>
    ensures { costed_by result ≡ costed n }
{
    if Store::LIMIT < n {
        return Err(Refusal::TooManyKeys);
    }
    Ok(deliveries(n))
}
