// A program for tests: it makes any public call of the libraries below on what it reads, with contents of ANY kind, in order or not, and writes
// every answer and every lent buffer whole. It reads request after request until its input ends.
//
// A request: three numbers of 8 bytes (which call, how many words, how many bytes), then the words (8 bytes each), then the bytes. Numbers are
// unsigned, high byte first. A reply: the byte '=', then as many words and as many bytes as the request had, with the answer put in place. A
// request that cannot be read (cut short, too long, a call that does not exist, fewer words than its call needs, more lent than is there) gets
// the single byte '?', and the program ends.
//
// The words of every request, by place:
//     0            the answer's number: of the first question answered no, or 0
//     1            the answer's count: of claims (read_frame), of claims written (beat), of deliveries (round_words, round_record,
//                  opening_cost), of bytes (write_frame, write_image, image_length, write_sheet), 1 or 0 for yes or no (ordered), or which
//                  kind of reply (0 match, 1 ask, 2 one, 3 two; 0 if refused)
//     2            the first argument: the key (enter), the first position (make), n (write_frame, opening_cost), the record's place
//                  (round_record)
//     3            the second argument: the last position (make), or how many words or bytes are lent; what comes after those is not lent
//     4 to 19      four claims, each lo, hi, sum, cnt (of cnt the low 16 bits count). The first is the argument of reply, judge and take; the
//                  four are those of write_frame. Answered: the claim of make in the first; of reply in the second and third, zeros where there
//                  is none; of read_frame all four; of round_record the record's claim in the first, and its sender in word 8
//     20 ..        the store, or the node's store, or a round's left store: its count, then as many keys as the limit, then as many sums
//     behind it    the node's pending count, then 64 claims; then the words from which a beat is lent its own
//     behind it    a round's right store; then the words from which a round is lent its own
//
// The calls: 1 enter, 2 make, 3 reply, 4 judge, 5 take, 6 beat, 7 round_words, 8 read_frame, 9 write_frame, 10 read_image, 11 write_image,
// 12 image_length, 13 ordered, 14 Store::empty, 15 round_record, 16 write_sheet, 17 opening_cost. Calls 8 to 12 and 16 are lent the
// first of the request's bytes.
#![tactic(auto)]

ghost use Rattle.std.specs.Prelude.{◌≤◌, length};
ghost use Rattle.drill.specs.Request.{most_words};

mod call;
mod calls;
mod card;
mod raw;

use reading::read_full;
use std::io;
use std::io::{Read, Write};

// The numbers of a request's head, and their bytes.
const NUMBERS: usize = 3;

const HEAD: usize = raw::WORD * NUMBERS;

// Says that the request could not be read, and that the program ends.
fn malformed<O: Write>(to: &mut O) -> io::Result<bool> {
    to.write_all(b"?")?;
    Ok(false)
}

// Fills some bytes from the input, and says whether there were so many.
fn fill<I: Read>(from: &mut I, bytes: &mut [u8]) -> io::Result<bool> {
    let got = read_full(from, bytes)?;
    Ok(got == bytes.len())
}

// Reads the words of a request, and says whether there were so many.
fn read_words<I: Read>(from: &mut I, words: &mut [u64]) -> io::Result<bool>
    requires { length words.old ≤ most_words }
{
    let mut space = raw::space();
    let part = &mut space[..raw::WORD * words.len()];
    let full = fill(from, part)?;
    raw::decode(part, words);
    Ok(full)
}

// Writes the mark and the words of a reply.
fn tell_words<O: Write>(to: &mut O, words: &[u64]) -> io::Result<()>
    requires { length words.now ≤ most_words }
{
    let mut space = raw::space();
    let reply = &mut space[..raw::WORD * words.len() + 1];
    raw::encode(words, &mut reply[1..]);
    to.write_all(reply)
}

// One request, after its head, with its words and bytes still to be read.
fn answer<I: Read, O: Write>(
    from: &mut I,
    to: &mut O,
    call: u64,
    words: &mut [u64],
    bytes: &mut [u8],
) -> io::Result<bool>
    requires { length words.old ≤ most_words }
{
    if !read_words(from, words)? || !fill(from, bytes)? {
        return malformed(to);
    }
    if calls::serve(call, words, bytes).is_none() {
        return malformed(to);
    }
    tell_words(to, words)?;
    to.write_all(bytes)?;
    Ok(true)
}

// One request, after its head, of n words and m bytes. A function of its own, which begins with its arrays: where they stood behind the reading of the head,
// they were filled with zeros twice, and a small request took a third longer.
fn body<I: Read, O: Write>(
    from: &mut I,
    to: &mut O,
    call: u64,
    n: usize,
    m: usize,
) -> io::Result<bool> {
    let mut words = [0; raw::MOST];
    let mut bytes = [0; raw::BYTES];
    match (words.get_mut(..n), bytes.get_mut(..m)) {
        (Some(words), Some(bytes)) => answer(from, to, call, words, bytes),
        _ => malformed(to),
    }
}

// One request; false where there is none or it could not be read. A bool and no error of its own: the program ends by either, and writes all that is to be told.
fn turn<I: Read, O: Write>(from: &mut I, to: &mut O) -> io::Result<bool> {
    let mut head = [0; HEAD];
    let got = read_full(from, &mut head)?;
    if got == 0 {
        return Ok(false);
    }
    if got < HEAD {
        return malformed(to);
    }
    let mut numbers = [0; NUMBERS];
    raw::decode(&head, &mut numbers);
    let [call, n, m] = numbers;
    body(from, to, call, n as usize, m as usize)
}

// Nothing says that the input ends, so the turns are counted, up to a number that no run uses up.
fn main(rt: HostRuntime) -> io::Result<()> {
    let mut from = rt.stdin();
    let mut to = rt.stdout();
    for _ in 0..u64::MAX {
        if !turn(&mut from, &mut to)? {
            break;
        }
    }
    Ok(())
}
