// Nodes.
use claims::Claim;
use keys::Store;

// Up to 64 pending claims: the table's places, and how many of them are used. Fixed memory, as of a store: no call allocates.
#[derive(Clone, Copy)]
pub struct Table {
    pub claims: [Claim; Node::TABLE],
    pub count: usize,
}

// A store and its pending claims.
#[derive(Clone, Copy)]
pub struct Node {
    pub store: Store,
    pub pending: Table,
}

impl Table {
    // The table with nothing pending.
    pub const EMPTY: Table = Table {
        claims: [Claim::NONE; Node::TABLE],
        count: 0,
    };
}

impl Node {
    pub const TABLE: usize = 64;

    // The pending claims that a beat replies to, at most.
    pub const REPLIES: usize = 8;

    // The places that a beat needs: the whole claim, and at most two claims for each reply.
    pub const BEAT: usize = 1 + 2 * Node::REPLIES;
}
