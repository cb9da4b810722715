// Images: what lies on a memory card.
ghost use Rattle.std.specs.Prelude.{◌≡◌, ◌+◌, ◌*◌, ◌≤◌, length, drop, IfOk};
ghost use Rattle.keys.specs.Place.{put_at};
ghost use Rattle.rule.specs.Answer.{rest_given};
ghost use Rattle.rule.specs.Table.{table_limit};
ghost use Rattle.rule.specs.Node.{blanks, table_by};
ghost use Rattle.nodes.specs.Lent.{node_with};
ghost use Rattle.wire.specs.Answer.{length_by, imaged_by, read_by};
ghost use Rattle.wire.specs.Claim.{count_width, claim_size};
ghost use Rattle.wire.specs.Image.{image_limit, section_bytes, image_bytes, read_image, image_length, write_image, image_lent};
ghost use Rattle.wire.specs.Run.{claim as claim-layout, read_run};
ghost use Rattle.wire.specs.Sizes.{count_told, sizes_of, Few, length_of, Readable};
ghost use Rattle.wire.specs.Lent.{read_image_in, read_image_in_lent, within_limits, write_image_in, image_in_lent};

use crate::number::{self, COUNT};
use crate::run::{Laid, read_run, write_run};
use claims::{Claim, Refusal};
use keys::Store;
use nodes::{admit_in, ordered};
use rule::{Node, Rest, Table};

// The longest image: both counts, and as many keys and pending claims as there may be.
pub const IMAGE: usize = 2 * COUNT + u64::SIZE * Store::LIMIT + Claim::SIZE * Node::TABLE;

// How many keys and pending claims an image has.
#[derive(Clone, Copy)]
struct Sizes {
    keys: usize,
    pending: usize,
}

impl Sizes {
    // How long the image is.
    fn length(self) -> usize
        requires { Few self }
        ensures { result ≡ length_of self }
    {
        COUNT + u64::SIZE * self.keys + COUNT + Claim::SIZE * self.pending
    }
}

// The count at a place, of a section that may have `most` things. Question 14.
fn count_at(bytes: &[u8], at: usize, most: usize) -> Result<usize, Refusal>
    requires { at ≤ image_limit }
    ensures told { result ≡ count_told most (drop at bytes.now) }
    ensures few { IfOk result (λ n. n ≤ most) }
{
    if bytes.len() < at + COUNT {
        return Err(Refusal::WrongImageLength);
    }
    let count = number::read(bytes, at, COUNT) as usize;
    if most < count {
        return Err(Refusal::WrongImageLength);
    }
    Ok(count)
}

// What both counts tell. Question 14.
fn sizes_of(bytes: &[u8]) -> Result<Sizes, Refusal>
    ensures told { result ≡ sizes_of bytes.now }
    ensures few { IfOk result (λ s. Few s) }
{
    let keys = count_at(bytes, 0, Store::LIMIT)?;
    let pending = count_at(bytes, COUNT + u64::SIZE * keys, Node::TABLE)?;
    Ok(Sizes { keys, pending })
}

// The length that the counts tell of the image at the front of some bytes. Question 14.
pub fn image_length(bytes: &[u8]) -> Result<usize, Refusal>
    ensures { length_by result ≡ image_length bytes.now }
{
    let length = sizes_of(bytes)?.length();
    if bytes.len() < length {
        return Err(Refusal::WrongImageLength);
    }
    Ok(length)
}

// As many claims as there are from a place on, as a table: zeros past them.
fn table_at(bytes: &[u8], at: usize, count: usize) -> Table
    requires { (count ≤ table_limit) × (at + claim_size * count ≤ length bytes.now) }
    ensures { result ≡ table_by (put_at (blanks table_limit) 0 (read_run claim-layout count (drop at bytes.now))) count }
{
    let mut claims = [Claim::NONE; Node::TABLE];
    read_run(bytes, at, &mut claims[..count]);
    Table { claims, count }
}

// The contents of an image whose counts and length are right: its keys into a lent run, and the rest.
fn contents(bytes: &[u8], sizes: Sizes, keys: &mut [u64; Store::LIMIT]) -> Rest
    requires { Readable bytes.now sizes }
    ensures { (rest_given result ≡ read_image_in bytes.now)
        × (keys.new ≡ read_image_in_lent bytes.now keys.old) }
{
    let at = COUNT + u64::SIZE * sizes.keys + COUNT;
    let pending = table_at(bytes, at, sizes.pending);
    read_run(bytes, COUNT, &mut keys[..sizes.keys]);
    Rest {
        held: sizes.keys,
        pending,
    }
}

// Reads an image: its keys into the first places of a lent run, and the rest. Asks 14; question 1 is left to `admit_in`.
pub fn read_image_in(bytes: &[u8], keys: &mut [u64; Store::LIMIT]) -> Result<Rest, Refusal>
    ensures { (read_by result ≡ read_image_in bytes.now)
        × (keys.new ≡ read_image_in_lent bytes.now keys.old) }
{
    let sizes = sizes_of(bytes)?;
    if bytes.len() != sizes.length() {
        return Err(Refusal::WrongImageLength);
    }
    Ok(contents(bytes, sizes, keys))
}

// The node of an image. Questions 14 and 1; then pending claims that fail 16 are left out, and the sums are worked out.
#[tactic(auto, using(crate::proofs::ImagePaths::told_part, crate::proofs::ImagePaths::told_refused))]
pub fn read_image(bytes: &[u8]) -> Result<Node, Refusal>
    ensures { imaged_by result ≡ read_image bytes.now }
{
    let mut store = Store::empty();
    let read = read_image_in(bytes, &mut store.keys)?;
    let keys = &store.keys[..];
    let rest = admit_in(&keys[..read.held], read)?;
    store.count = rest.held;
    store.renew(0);
    Ok(Node {
        store,
        pending: rest.pending,
    })
}

// Writes a section at a place: how many things it has, and the things.
fn write_section<T: Laid>(out: &mut [u8], at: usize, things: &[T])
    requires { at + count_width + T.layout.size * length things.now ≤ length out.old }
    ensures { out.new ≡ put_at out.old at (section_bytes T.layout things.now) }
{
    number::write(out, at, COUNT, things.len() as u64);
    write_run(out, at + COUNT, things);
}

// Writes the image of some keys and pending claims to the front of a buffer that has room for it.
fn put_image(out: &mut [u8], keys: &[u64], pending: &[Claim])
    requires { length (image_bytes keys.now pending.now) ≤ length out.old }
    ensures { out.new ≡ put_at out.old 0 (image_bytes keys.now pending.now) }
{
    write_section(out, 0, keys);
    write_section(out, COUNT + u64::SIZE * keys.len(), pending);
}

// Whether all places of the keys are there, and both counts not too high.
fn within_limits(keys: &[u64], sizes: Sizes) -> bool
    ensures { result ≡ within_limits keys.now sizes.keys sizes.pending }
{
    keys.len() == Store::LIMIT && sizes.keys <= Store::LIMIT && sizes.pending <= Node::TABLE
}

// Writes the image of a node of lent parts, as `write_image_in` does.
fn write_parts(keys: &[u64], held: usize, pending: &Table, out: &mut [u8]) -> Result<usize, Refusal>
    ensures { (length_by result ≡ write_image_in (node_with keys.now held pending.now) (length out.old))
        × (out.new ≡ image_in_lent (node_with keys.now held pending.now) out.old) }
{
    let claims = &pending.claims[..];
    let sizes = Sizes {
        keys: held,
        pending: pending.count,
    };
    if !within_limits(keys, sizes) {
        return Err(Refusal::OutOfOrder);
    }
    let length = sizes.length();
    if out.len() < length {
        return Err(Refusal::OutputTooShort);
    }
    put_image(out, &keys[..held], &claims[..pending.count]);
    Ok(length)
}

// Writes the image of a node whose keys are lent, for any content: question 1 is not put, but places and counts that no node has are refused with its number.
// Asks 15 for the image's own length.
pub fn write_image_in(keys: &[u64], rest: &Rest, out: &mut [u8]) -> Result<usize, Refusal>
    ensures { (length_by result ≡ write_image_in (node_with keys.now rest.now.held rest.now.pending) (length out.old))
        × (out.new ≡ image_in_lent (node_with keys.now rest.now.held rest.now.pending) out.old) }
{
    write_parts(keys, rest.held, &rest.pending, out)
}

// Writes the image of a node to the front of a buffer. Questions 1, and 15 for the image's own length.
pub fn write_image(node: &Node, out: &mut [u8]) -> Result<usize, Refusal>
    ensures { (length_by result ≡ write_image node.now (length out.old))
        × (out.new ≡ image_lent node.now out.old) }
{
    if !ordered(node) {
        return Err(Refusal::OutOfOrder);
    }
    write_parts(&node.store.keys, node.store.count, &node.pending, out)
}
