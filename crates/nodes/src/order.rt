// Question 1 of a node that is given, and of one that an image holds: whether it is in order.
ghost use Rattle.std.specs.Prelude.{◌≡◌, true, ◌&&◌, eqb, length, take};
ghost use Rattle.keys.specs.Store.{Sized};
ghost use Rattle.keys.specs.Lent.{ordered_in};
ghost use Rattle.claims.specs.Reply.{ends};
ghost use Rattle.claims.specs.Call.{judged_formerly};
ghost use Rattle.rule.specs.Table.{table_limit};
ghost use Rattle.rule.specs.Node.{holds_all, all_tell, all_unused, node_in_order};
ghost use Rattle.nodes.specs.Lent.{pending, order_of, front_in};

use claims::{Claim, judge_formerly, tells};
use keys::{LentStore, ordered_in, places_in, summed_in};
use rule::{Node, Table};

// Whether a claim passes questions 2 to 5 and has lo and hi in the store. Its keys are lent with all their places, as the order of a store speaks of them.
fn fits(keys: &[u64], held: usize, claim: Claim) -> bool
    requires { ordered_in keys.now held ≡ true }
    ensures { result ≡ (eqb (judged_formerly claim) 0 && holds_all (ends claim) (take held keys.now)) }
{
    if judge_formerly(claim).is_err() {
        return false;
    }
    let places = places_in(keys, held, claim.lo, claim.hi);
    places.lower.held && places.upper.held
}

// Whether claims or a node are in order: not; as those in an image, which 16 is not asked of; or as those that are given, which pass that too.
#[derive(Clone, Copy)]
pub(crate) enum Order {
    Out,
    Saved,
    Given,
}

// Whether claims rise strictly and each fits, and if so whether each passes 16, in one pass. None that fits is all zeros, so the first one comes after that.
fn pending(keys: &[u64], held: usize, claims: &[Claim]) -> Order
    requires { ordered_in keys.now held ≡ true }
    ensures { result ≡ order_of (pending claims.now (take held keys.now)) (all_tell claims.now) }
{
    let mut given = true;
    let mut last = Claim::NONE;
    for claim in claims {
        if *claim <= last {
            return Order::Out;
        }
        if !fits(keys, held, *claim) {
            return Order::Out;
        }
        last = *claim;
        given &= tells(*claim);
    }
    if given { Order::Given } else { Order::Saved }
}

// Whether places of a table are zeros.
fn all_unused(places: &[Claim]) -> bool
    ensures { result ≡ all_unused places.now }
{
    places.iter().all(|place| *place == Claim::NONE)
}

// Whether the node of these keys and of the claims of a table is in order. What stands past them is not looked at.
pub(crate) fn front_in(keys: &[u64], table: &Table) -> Order
    ensures { result ≡ order_of (front_in keys.now table.now.claims table.now.count) (all_tell (take table.now.count table.now.claims)) }
{
    if Node::TABLE < table.count {
        return Order::Out;
    }
    if !ordered_in(keys, keys.len()) {
        return Order::Out;
    }
    pending(keys, keys.len(), &table.claims[..table.count])
}

// Whether a node is in order; and for proofs that its runs have as many places as their types say, which they know where the runs are lent.
pub(crate) fn in_order(node: &Node) -> bool
    ensures told { result ≡ node_in_order node.now }
    ensures sized { Sized node.now.store }
    ensures whole { length node.now.pending.claims ≡ table_limit }
{
    let store = LentStore {
        keys: &node.store.keys,
        sums: &node.store.sums,
        count: node.store.count,
    };
    let claims = &node.pending.claims[..];
    let count = node.pending.count;
    if !summed_in(store) {
        return false;
    }
    if Node::TABLE < count {
        return false;
    }
    match pending(store.keys, store.count, &claims[..count]) {
        Order::Given => all_unused(&claims[count..]),
        Order::Out | Order::Saved => false,
    }
}

// Whether a node is in order.
pub fn ordered(node: &Node) -> bool
    ensures { result ≡ node_in_order node.now }
{
    in_order(node)
}
