// What reading and joining give beside a lent run of keys.
use crate::node::Table;

// A node but for its keys, which are lent: how many are held, and the pending claims.
#[derive(Clone, Copy)]
pub struct Rest {
    pub held: usize,
    pub pending: Table,
}
