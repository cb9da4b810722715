// Taking a claim: what hearing it adds is added to the store, and it goes into the table in its place.
ghost use Rattle.std.specs.Prelude.{◌≡◌, ◌≤◌, ◌<◌, length, take};
ghost use Rattle.keys.specs.Lent.{inserted_at};
ghost use Rattle.rule.specs.Table.{table_limit};
ghost use Rattle.rule.specs.Call.{taken};
ghost use Rattle.rule.specs.Answer.{taken_by};
ghost use Rattle.nodes.specs.Lent.{place_among, table_in, Enlisted, node_with, taken_with, take_in};

use crate::order::in_order;
use claims::{Claim, Refusal, hear_in};
use keys::Store;
use rule::{Node, Table};

// The place of a claim among others, if these rise: after all that come before it. The promise of `take_in` names the place that halving finds in a table that
// does not rise, too, of which `partition_point` says nothing.
fn place_among(claims: &[Claim], claim: Claim) -> usize
    ensures { (result ≡ place_among claim claims.now) × (result ≤ length claims.now) }
{
    let mut base = 0;
    let mut size = claims.len();
    while 0 < size {
        let half = size / 2;
        let mid = base + half;
        if claims[mid] < claim {
            base = mid + 1;
            size -= half + 1;
        } else {
            size = half;
        }
    }
    base
}

// Puts a claim in at a place: the claims from there to the count move up by one. As `put` of `keys` does with keys: one for both would be public, and ask for
// room once more.
fn put(claims: &mut [Claim], count: usize, at: usize, claim: Claim)
    requires { (at ≤ count) × (count < length claims.old) }
    ensures { claims.new ≡ inserted_at at count claim claims.old }
{
    claims.copy_within(at..count, at + 1);
    claims[at] = claim;
}

// Puts a claim into a table in its place, unless it is the one there; of 65 the last is dropped.
fn enlist(table: &mut Table, claim: Claim)
    ensures { Enlisted table.old.claims (table_in claim (take table.old.count table.old.claims)) table.new.claims table.new.count }
{
    let count = table.count.min(Node::TABLE);
    table.count = count;
    let claims = &mut table.claims[..];
    let at = place_among(&claims[..count], claim);
    if at == Node::TABLE {
        return;
    }
    if at < count && claims[at] <= claim {
        return;
    }
    let kept = count.min(Node::TABLE - 1);
    put(claims, kept, at, claim);
    table.count = kept + 1;
}

// Takes a claim into a node whose keys are lent, and says how many are held then. Asks 2 to 5, 16 and 6. Keys and table are lent apart, since they lie apart in
// a node and in what is read of an image.
pub fn take_in(
    keys: &mut [u64; Store::LIMIT],
    held: usize,
    pending: &mut Table,
    claim: Claim,
) -> Result<usize, Refusal>
    ensures { taken_with keys.new held pending.new result ≡ take_in (node_with keys.old held pending.old) claim }
{
    let heard = hear_in(keys, held, claim)?;
    enlist(pending, claim);
    Ok(heard.count)
}

// Takes a claim. Asks 1, 2 to 5, 16 and 6.
pub fn take(node: &mut Node, claim: Claim) -> Result<(), Refusal>
    ensures { taken_by node.new result ≡ taken node.old claim }
{
    if !in_order(node) {
        return Err(Refusal::OutOfOrder);
    }
    let held = node.store.count;
    node.store.count = take_in(&mut node.store.keys, held, &mut node.pending, claim)?;
    node.store.renew(0);
    Ok(())
}
