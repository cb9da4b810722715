// The wall sheet of a kiosk (document 02, slip 4): its image on standard input, the sheet for the wall on standard output, or only `refused`, a space and the
// number. What it decides and prints is `sheet::wall_text`; here are only the reading and the writing.
#![tactic(auto)]

ghost use Rattle.std.specs.Prelude.{◌≡◌, ◌+◌, length};
ghost use Rattle.wire.specs.Image.{image_limit};

use reading::read_full;
use sheet::{SHEET, wall_text};
use std::io;
use std::io::Write;
use wire::IMAGE;

// Room for the longest image and one byte more: longer input is then too long for it, and gets 14 without being read to its end.
const INPUT: usize = IMAGE + 1;

// A function, since its clause is all that holds the constant: nothing else says how much is read.
fn room_for_input() -> [u8; INPUT]
    ensures { length result ≡ image_limit + 1 }
{
    [0; INPUT]
}

// The same five lines as in `rehearse`: a function for both would take rooms and call, and state of the call what it promises already.
fn main(rt: HostRuntime) -> io::Result<()> {
    let mut input = room_for_input();
    let read = read_full(&mut rt.stdin(), &mut input)?;
    let mut text = [0; SHEET];
    let length = wall_text(&input[..read], &mut text);
    rt.stdout().write_all(&text[..length])
}
