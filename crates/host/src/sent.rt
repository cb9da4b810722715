// A beat, and the claims that it sends in frames.
ghost use Rattle.std.specs.Prelude.{◌≡◌, true, ◌+◌, ◌*◌, ◌/◌, ◌≤◌, length, take};
ghost use Rattle.keys.specs.Place.{put_at};
ghost use Rattle.claims.specs.Words.{claim_width};
ghost use Rattle.rule.specs.Answer.{rest_given};
ghost use Rattle.nodes.specs.Lent.{node_held};
ghost use Rattle.wire.specs.Frame.{frame_limit, frame_length, frame_bytes, countable, all_pass, four_of};
ghost use Rattle.wire.specs.Run.{read_run};
ghost use Rattle.host.specs.Frames.{in_words, claims_in};
ghost use Rattle.host.specs.Known.{FramesGiven, FramesWritten, SendGiven, Sent, BeatTold};

use crate::load::load;
use beats::beat_in;
use claims::{Claim, Refusal};
use keys::{LentStore, Store, resum_in};
use rule::{Node, Rest};
use wire::{Frame, IMAGE, write_frame, write_image_in};
use words::claim_at;

// The length of the frames of as many claims as a beat may send.
const FRAMES: usize = Frame::HEAD * ((Node::BEAT + (Frame::CLAIMS - 1)) / Frame::CLAIMS)
    + Frame::CLAIM * Node::BEAT;

// The frame of the claims that some words are, of which there are up to four. By index: claims lie in the words without a type of their own.
// `drill` reads a frame's four so, too; it is a program for tests, and calls a crate for none of this.
fn frame_of(words: &[u64]) -> Frame
    requires { (length words.now ≤ claim_width * frame_limit) × (all_pass (claims_in words.now) ≡ true) }
    ensures { (result.claims ≡ four_of (claims_in words.now)) × (result.count ≡ length words.now / claim_width) }
{
    let count = words.len() / Claim::WORDS;
    let mut claims = [Claim::NONE; Frame::CLAIMS];
    for (i, claim) in claims[..count].iter_mut().enumerate() {
        *claim = claim_at(words, Claim::WORDS * i);
    }
    Frame { claims, count }
}

// Writes a frame at a place, and returns the place after it.
fn write_at(frames: &mut [u8], at: usize, frame: Frame) -> usize
    requires { (countable frame.count ≡ true) × (all_pass (take frame.count frame.claims) ≡ true) × (at + frame_length frame.count ≤ length frames.old) }
    ensures { (result ≡ at + frame_length frame.count) × (frames.new ≡ put_at frames.old at (frame_bytes (take frame.count frame.claims))) }
{
    let written = write_frame(frame, &mut frames[at..]).unwrap();
    at + written
}

// Writes the first `count` claims of a lent run in frames, and returns their length. A beat has room for more than it wrote.
fn write_frames(words: &[u64], count: usize, frames: &mut [u8]) -> usize
    requires { FramesGiven words.now count (length frames.old) }
    ensures { FramesWritten (read_run in_words count words.now) frames.old frames.new result }
{
    let mut at = 0;
    for four in words[..Claim::WORDS * count].chunks(Claim::WORDS * Frame::CLAIMS) {
        at = write_at(frames, at, frame_of(four));
    }
    at
}

// Runs a beat of a node whose keys are lent, and writes the image of the node afterwards and the frames of the claims that it sends, whose length it returns.
// An image has no sums: they are worked out here, once.
fn send(keys: &[u64], mut node: Rest, out: &mut [u8], frames: &mut [u8]) -> Result<usize, Refusal>
    requires { SendGiven (node_held keys.now (rest_given node)) (length out.old) (length frames.old) }
    ensures { Sent (node_held keys.now (rest_given node)) out.old out.new frames.old frames.new result }
{
    let mut sums = [0; Store::LIMIT];
    resum_in(keys, &mut sums, 0, node.held);
    let store = LentStore {
        keys,
        sums: &sums,
        count: node.held,
    };
    let mut words = [0; Claim::WORDS * Node::BEAT];
    let written = beat_in(store, &mut node.pending, &mut words)?;
    write_image_in(keys, &node, out)?;
    Ok(write_frames(&words, written, frames))
}

// Runs a beat of the node of an image, and writes the new image and the frames, whose length it returns. Asks 14, 1 and 15.
pub(crate) fn beat(image: &[u8], out: &mut [u8], frames: &mut [u8]) -> Result<usize, Refusal>
    ensures { BeatTold image.now out.old out.new frames.old frames.new result }
{
    let mut keys = [0; Store::LIMIT];
    let node = load(image, &mut keys)?;
    if out.len() < IMAGE || frames.len() < FRAMES {
        return Err(Refusal::OutputTooShort);
    }
    send(&keys, node, out, frames)
}
