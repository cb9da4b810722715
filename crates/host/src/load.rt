// The node of an image: its keys in a lent run of zeros, and the rest.
ghost use Rattle.std.specs.Prelude.{◌≡◌};
ghost use Rattle.keys.specs.Store.{limit, zeros};
ghost use Rattle.wire.specs.Answer.{read_by};
ghost use Rattle.host.specs.Known.{Loaded};

use claims::Refusal;
use keys::Store;
use nodes::admit_in;
use rule::Rest;
use wire::read_image_in;

// Loads an image. Asks 14 and 1; then pending claims that fail 16 are left out. The run is lent: a type that owned it would be copied, 16 KB, to be handed on.
// `read_image` goes by the same two calls, into a store of its own.
pub(crate) fn load(image: &[u8], keys: &mut [u64; Store::LIMIT]) -> Result<Rest, Refusal>
    requires { keys.old ≡ zeros limit }
    ensures { Loaded image.now keys.new (read_by result) }
{
    let read = read_image_in(image, keys)?;
    admit_in(&keys[..read.held], read)
}
