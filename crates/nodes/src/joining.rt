// Two nodes in one: the keys of both merged, and the claims of both, the first as many as a table has places.
ghost use Rattle.std.specs.Prelude.{◌≡◌, ◌≤◌, min, take, length, ◌-◌};
ghost use Rattle.rule.specs.Table.{table_limit};
ghost use Rattle.rule.specs.Node.{blanks};
ghost use Rattle.rule.specs.Answer.{rest_given, rest_by};
ghost use Rattle.nodes.specs.Lent.{Enlisted, node_held, taken_beside};
ghost use Rattle.nodes.specs.Joining.{tables_in, CopiedBehind, join_in};

use claims::{Claim, Refusal};
use keys::Store;
use merging::merge_in;
use rule::{Node, Rest, Table};

// Copies claims behind those of a table, as far as there are places.
fn append(table: &mut Table, claims: &[Claim])
    requires { table.old.count ≤ table_limit }
    ensures { CopiedBehind table.old.claims table.old.count (take (table_limit - table.old.count) claims.now) table.new.claims table.new.count }
{
    let at = table.count;
    let more = claims.len().min(Node::TABLE - at);
    table.claims[at..at + more].copy_from_slice(&claims[..more]);
    table.count = at + more;
}

// Two runs of claims, merged: at each turn the one that comes before goes into the table, and of equal ones the first, and both are passed.
// Two indices, which go on at different steps: no iterator merges. Not the walk of `merging`, which never ends before a run does.
fn merge_tables(one: &[Claim], other: &[Claim]) -> Table
    ensures { Enlisted (blanks table_limit) (tables_in one.now other.now) result.claims result.count }
{
    let mut table = Table::EMPTY;
    let mut i = 0;
    let mut j = 0;
    while table.count < Node::TABLE {
        if i == one.len() {
            append(&mut table, &other[j..]);
            return table;
        }
        if j == other.len() {
            append(&mut table, &one[i..]);
            return table;
        }
        let a = one[i];
        let b = other[j];
        table.claims[table.count] = a.min(b);
        table.count += 1;
        i += (a <= b) as usize;
        j += (b <= a) as usize;
    }
    table
}

// Joins two nodes whose keys are lent, into a third run. Asks 8.
pub fn join_in(
    one: &[u64],
    first: &Rest,
    other: &[u64],
    second: &Rest,
    into: &mut [u64; Store::LIMIT],
) -> Result<Rest, Refusal>
    ensures { taken_beside into.new (rest_by first.now result)
        ≡ join_in (node_held one.now (rest_given first.now)) (node_held other.now (rest_given second.now)) into.old }
{
    let own = first.held.min(one.len());
    let brought = second.held.min(other.len());
    let held = merge_in(&one[..own], &other[..brought], into);
    if Store::LIMIT < held {
        return Err(Refusal::UnionBeyondLimit);
    }
    let claims = &first.pending.claims[..];
    let others = &second.pending.claims[..];
    let count = first.pending.count.min(claims.len());
    let known = second.pending.count.min(others.len());
    let pending = merge_tables(&claims[..count], &others[..known]);
    Ok(Rest { held, pending })
}
