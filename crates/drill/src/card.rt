// Claims, stores and nodes in the words of a request, at the places that main.rt tells.
ghost use Rattle.std.specs.Prelude.{◌≤◌, ◌+◌, ◌*◌, length, IfSome};
ghost use Rattle.claims.specs.Words.{claim_width};
ghost use Rattle.drill.specs.Request.{store_words, past_node};

use claims::{Claim, Store};
use rule::{Node, Table};
use words::{claim_at, put_claim};

// The number and count of the answer, both arguments.
pub const NUMBER: usize = 0;

pub const COUNT: usize = 1;

pub const FIRST: usize = 2;

pub const SECOND: usize = 3;

// The claims.
pub const CLAIMS: usize = 4;

// The words of a store: its count, its keys, its sums.
const STORE: usize = 1 + 2 * Store::LIMIT;

// The store, the place after it, the table's claims, and the places after the node and after both stores.
pub const LEFT: usize = 20;

pub const RIGHT: usize = LEFT + STORE;

const TABLE: usize = RIGHT + 1;

pub const PAST_NODE: usize = TABLE + Claim::WORDS * Node::TABLE;

pub const PAST_BOTH: usize = RIGHT + STORE;

// The place after the last word that a call is lent from a place on; none where the words end before it.
pub fn end_of_lent(words: &[u64], from: usize) -> Option<usize>
    requires { (4 ≤ from) × (from ≤ length words.now) }
    ensures { IfSome result (λ end. (from ≤ end) × (end ≤ length words.now)) }
{
    let lent = words[SECOND] as usize;
    if words.len() - from < lent {
        return None;
    }
    Some(from + lent)
}

// Some claims, one behind another from a place on.
pub fn claims_at<const N: usize>(words: &[u64], at: usize) -> [Claim; N]
    requires { at + claim_width * N ≤ length words.now }
{
    let mut claims = [Claim::NONE; N];
    for (i, claim) in claims.iter_mut().enumerate() {
        *claim = claim_at(words, at + Claim::WORDS * i);
    }
    claims
}

pub fn put_claims(words: &mut [u64], at: usize, claims: &[Claim])
    requires { at + claim_width * length claims.now ≤ length words.old }
{
    for (i, claim) in claims.iter().enumerate() {
        put_claim(words, at + Claim::WORDS * i, *claim);
    }
}

pub fn store_at(words: &[u64], at: usize) -> Store
    requires { at + store_words ≤ length words.now }
{
    let mut store = Store::EMPTY;
    store.count = words[at] as usize;
    let runs = &words[at + 1..at + STORE];
    let (keys, sums) = runs.split_at(Store::LIMIT);
    store.keys.copy_from_slice(keys);
    store.sums.copy_from_slice(sums);
    store
}

pub fn put_store(words: &mut [u64], at: usize, store: &Store)
    requires { at + store_words ≤ length words.old }
{
    words[at] = store.count as u64;
    words[at + 1..at + 1 + Store::LIMIT].copy_from_slice(&store.keys);
    words[at + 1 + Store::LIMIT..at + STORE].copy_from_slice(&store.sums);
}

pub fn node_in(words: &[u64]) -> Node
    requires { past_node ≤ length words.now }
{
    Node {
        store: store_at(words, LEFT),
        pending: Table {
            claims: claims_at(words, TABLE),
            count: words[RIGHT] as usize,
        },
    }
}

pub fn put_node(words: &mut [u64], node: &Node)
    requires { past_node ≤ length words.old }
{
    put_store(words, LEFT, &node.store);
    words[RIGHT] = node.pending.count as u64;
    put_claims(words, TABLE, &node.pending.claims);
}
