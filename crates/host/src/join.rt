// Two images, joined.
ghost use Rattle.std.specs.Prelude.{◌≡◌};
ghost use Rattle.keys.specs.Store.{limit, zeros};
ghost use Rattle.wire.specs.Answer.{read_by};
ghost use Rattle.host.specs.Call.{joining_questions, node_joined};
ghost use Rattle.host.specs.Known.{JoinedFrom, Saved};

use crate::load::load;
use crate::save::save;
use claims::Refusal;
use keys::Store;
use nodes::join_in;
use rule::Rest;

// The joined node of two images, its keys in a lent run of zeros. Asks 14 and 1 of the first image, then of the second, and 8.
fn joined_from(first: &[u8], second: &[u8], keys: &mut [u64; Store::LIMIT]) -> Result<Rest, Refusal>
    requires { keys.old ≡ zeros limit }
    ensures { JoinedFrom first.now second.now keys.new (read_by result) }
{
    let mut one = [0; Store::LIMIT];
    let own = load(first, &mut one)?;
    let mut other = [0; Store::LIMIT];
    let brought = load(second, &mut other)?;
    join_in(&one, &own, &other, &brought, keys)
}

// Joins the nodes of two images, and writes the image of the joined node. Asks 14 and 1 of the first image, then of the second, 8 and 15.
pub(crate) fn join(first: &[u8], second: &[u8], out: &mut [u8]) -> Result<usize, Refusal>
    ensures { Saved (joining_questions first.now second.now) (node_joined first.now second.now) out.old out.new result }
{
    let mut keys = [0; Store::LIMIT];
    let node = joined_from(first, second, &mut keys)?;
    save(&keys, node, out)
}
