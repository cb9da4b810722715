// What an image holds, admitted: judged as images are, and then without the claims that fail 16.
ghost use Rattle.std.specs.Prelude.{◌≡◌, ◌≤◌};
ghost use Rattle.rule.specs.Table.{table_limit};
ghost use Rattle.rule.specs.Answer.{rest_given, rest_by};
ghost use Rattle.nodes.specs.Lent.{table_left, admit_in};

use crate::order::{Order, front_in};
use claims::{Claim, Refusal, tells};
use rule::{Rest, Table};

// Leaves out those of the claims of a table that fail 16: the others move up, and the places that they leave are zeros again.
// By index, as a `retain` goes: a place is written behind the one that is read.
fn leave_out(table: &mut Table)
    requires { table.old.count ≤ table_limit }
    ensures { table.new ≡ table_left table.old.claims table.old.count }
{
    let count = table.count;
    let places = &mut table.claims[..];
    let mut kept = 0;
    for i in 0..count {
        let claim = places[i];
        places[i] = Claim::NONE;
        if tells(claim) {
            places[kept] = claim;
            kept += 1;
        }
    }
    table.count = kept;
}

// Admits what was read of an image: the keys, and the rest. Asks 1, as images are judged; then leaves out the claims that fail 16.
pub fn admit_in(keys: &[u64], mut read: Rest) -> Result<Rest, Refusal>
    ensures { rest_by read result ≡ admit_in keys.now (rest_given read) }
{
    match front_in(keys, &read.pending) {
        Order::Out => Err(Refusal::OutOfOrder),
        Order::Saved => {
            leave_out(&mut read.pending);
            Ok(read)
        }
        Order::Given => Ok(read),
    }
}
