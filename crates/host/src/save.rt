// The end of a call that writes one image.
ghost use Rattle.std.specs.Prelude.{[]};
ghost use Rattle.rule.specs.Answer.{rest_given};
ghost use Rattle.nodes.specs.Lent.{node_held};
ghost use Rattle.host.specs.Known.{Sound, Saved};

use claims::Refusal;
use rule::Rest;
use wire::{IMAGE, write_image_in};

// Writes the image of a node to the front of `out`, and returns its length. Asks 15. Three calls end by it, after one line of their own: a function that took
// that line as a closure would be no shorter.
pub(crate) fn save(keys: &[u64], node: Rest, out: &mut [u8]) -> Result<usize, Refusal>
    requires { Sound keys.now (rest_given node) }
    ensures { Saved [] (node_held keys.now (rest_given node)) out.old out.new result }
{
    if out.len() < IMAGE {
        return Err(Refusal::OutputTooShort);
    }
    write_image_in(keys, &node, out)
}
