// The claims of a frame, taken in turn.
ghost use Rattle.std.specs.Prelude.{◌≡◌};
ghost use Rattle.keys.specs.Store.{limit, zeros};
ghost use Rattle.claims.specs.Refusal.{number_told};
ghost use Rattle.rule.specs.Answer.{rest_given, rest_numbered};
ghost use Rattle.nodes.specs.Lent.{node_held};
ghost use Rattle.wire.specs.Answer.{read_by};
ghost use Rattle.host.specs.Call.{taking_questions, node_after};
ghost use Rattle.host.specs.Known.{TurnsGiven, Turned, TakenFrom, Saved};

use crate::load::load;
use crate::save::save;
use claims::{Claim, Refusal};
use keys::Store;
use nodes::take_in;
use rule::Rest;
use wire::read_frame;

// Takes claims in turn into a node whose keys are lent, until one is refused, with 6.
#[tactic(auto, using(crate::proofs::TurnPaths::turns))]
fn take_in_turn(
    keys: &mut [u64; Store::LIMIT],
    node: &mut Rest,
    claims: &[Claim],
) -> Result<(), Refusal>
    requires { TurnsGiven (node_held keys.old (rest_given node.old)) }
    ensures { Turned (node_held keys.old (rest_given node.old)) claims.now keys.new (rest_numbered (number_told result) node.new) }
{
    for claim in claims {
        node.held = take_in(keys, node.held, &mut node.pending, *claim)?;
    }
    Ok(())
}

// The node of an image with the claims of a frame taken, in turn, its keys in a lent run of zeros. Asks 14, 1, 10 to 13, and 6 claim by claim.
fn taken_from(image: &[u8], frame: &[u8], keys: &mut [u64; Store::LIMIT]) -> Result<Rest, Refusal>
    requires { keys.old ≡ zeros limit }
    ensures { TakenFrom image.now frame.now keys.new (read_by result) }
{
    let mut node = load(image, keys)?;
    let frame = read_frame(frame)?;
    take_in_turn(keys, &mut node, &frame.claims[..frame.count])?;
    Ok(node)
}

// Takes the claims of a frame into the node of an image, and writes the new image. Asks 14, 1, 10 to 13, 6 claim by claim, and 15.
pub(crate) fn take_frame(image: &[u8], frame: &[u8], out: &mut [u8]) -> Result<usize, Refusal>
    ensures { Saved (taking_questions image.now frame.now) (node_after image.now frame.now) out.old out.new result }
{
    let mut keys = [0; Store::LIMIT];
    let node = taken_from(image, frame, &mut keys)?;
    save(&keys, node, out)
}
