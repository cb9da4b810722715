// The rehearsal program (document 01): two images end to end on standard input, one round's deliveries on standard output.
// What it decides and prints is `rehearsal::rehearse_text`; here are only the reading and the writing.
#![tactic(auto)]

ghost use Rattle.std.specs.Prelude.{◌≡◌, ◌+◌, ◌*◌, length};
ghost use Rattle.wire.specs.Image.{image_limit};

use reading::read_full;
use rehearsal::{Rehearsed, rehearse_text};
use std::io;
use std::io::Write;
use wire::IMAGE;

// Room for two of the longest images and one byte more: longer input is then too long for them, and gets 14 without being read to its end.
const INPUT: usize = 2 * IMAGE + 1;

// A function, since its clause is all that holds the constant: nothing else says how much is read.
fn room_for_input() -> [u8; INPUT]
    ensures { length result ≡ 2 * image_limit + 1 }
{
    [0; INPUT]
}

// The same five lines as in `wallsheet`: a function for both would take rooms and call, and state of the call what it promises already.
fn main(rt: HostRuntime) -> io::Result<()> {
    let mut input = room_for_input();
    let read = read_full(&mut rt.stdin(), &mut input)?;
    let mut text = [0; Rehearsed::TEXT];
    let length = rehearse_text(&input[..read], &mut text);
    rt.stdout().write_all(&text[..length])
}
