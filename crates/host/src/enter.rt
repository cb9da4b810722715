// A key entered into the node of an image.
ghost use Rattle.std.specs.Prelude.{◌≡◌};
ghost use Rattle.keys.specs.Store.{limit, zeros};
ghost use Rattle.wire.specs.Answer.{read_by};
ghost use Rattle.host.specs.Call.{entering_questions, node_in, node_entered};
ghost use Rattle.host.specs.Known.{EnteredInto, Saved};

use crate::load::load;
use crate::save::save;
use claims::Refusal;
use keys::{Store, add_in};
use rule::Rest;

// The node of an image with a key entered, its keys in a lent run of zeros. Asks 14, 1 and 6.
fn entered_into(image: &[u8], key: u64, keys: &mut [u64; Store::LIMIT]) -> Result<Rest, Refusal>
    requires { keys.old ≡ zeros limit }
    ensures { EnteredInto image.now key keys.new (read_by result) }
{
    let mut node = load(image, keys)?;
    let Some(added) = add_in(keys, node.held, key) else {
        return Err(Refusal::NoRoom);
    };
    node.held = added.count;
    Ok(node)
}

// Enters a key into the node of an image, and writes the new image. Asks 14, 1, 6 and 15.
pub(crate) fn enter(image: &[u8], key: u64, out: &mut [u8]) -> Result<usize, Refusal>
    ensures { Saved (entering_questions image.now key) (node_entered (node_in image.now) key) out.old out.new result }
{
    let mut keys = [0; Store::LIMIT];
    let node = entered_into(image, key, &mut keys)?;
    save(&keys, node, out)
}
