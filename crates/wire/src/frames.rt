// Frames: what travels by radio.
ghost use Rattle.std.specs.Prelude.{◌≡◌, ◌≤◌, length, eqb, IfOk, OnOk};
ghost use Rattle.claims.specs.Question.{first_no};
ghost use Rattle.claims.specs.Call.{judged};
ghost use Rattle.claims.specs.Refusal.{number_told};
ghost use Rattle.wire.specs.Answer.{framed_by, length_by};
ghost use Rattle.wire.specs.Frame.{frame_limit, frame_length, frame_count, countable, all_pass, head_questions};
ghost use Rattle.wire.specs.Frame.{read_frame, write_frame_questions, write_frame, frame_lent};

use crate::run::{Laid, read_run, write_run};
use claims::{Claim, Refusal, judge};

// The claims of a frame, in fixed places since there is no heap, and how many they are: what is read has zeros past them.
#[derive(Clone, Copy)]
pub struct Frame {
    pub claims: [Claim; Frame::CLAIMS],
    pub count: usize,
}

impl Frame {
    // A frame has from one claim to so many.
    pub const CLAIMS: usize = 4;

    // The bytes before the claims (mark, version and count), and those of each claim.
    pub const HEAD: usize = 4;

    pub const CLAIM: usize = Claim::SIZE;

    // The longest frame.
    pub const LENGTH: usize = Frame::HEAD + Frame::CLAIM * Frame::CLAIMS;
}

// Every frame begins with these two bytes; after them stand the version byte and the count byte, and then the claims.
const FIRST: u8 = 0x4C;

const SECOND: u8 = 0x43;

const VERSION: u8 = 1;

// Question 12 of n: is it from 1 to 4?
#[tactic(auto, unfolding(crate::specs::Frame::countable))]
fn countable(n: usize) -> bool
    ensures { result ≡ countable n }
{
    (1..=Frame::CLAIMS).contains(&n)
}

// Questions 10 to 12: of a frame that passes them, how many claims it has.
#[tactic(auto, unfolding(crate::specs::Frame::marked, crate::specs::Frame::sized, crate::specs::Frame::countable))]
fn heading(bytes: &[u8]) -> Result<usize, Refusal>
    ensures asked { number_told result ≡ first_no (head_questions bytes.now) }
    ensures count { IfOk result (λ n. n ≡ frame_count bytes.now) }
    ensures room { IfOk result (λ n. (n ≤ frame_limit) × (frame_length n ≤ length bytes.now)) }
{
    let n = match bytes {
        [FIRST, SECOND, VERSION, count, ..] => *count as usize,
        [FIRST, SECOND, _, _, ..] => return Err(Refusal::OtherVersion),
        _ => return Err(Refusal::NoFrame),
    };
    if !countable(n) || bytes.len() != Frame::HEAD + Frame::CLAIM * n {
        return Err(Refusal::WrongFrameLength);
    }
    Ok(n)
}

// Question 13 of one claim.
fn passes(claim: Claim) -> bool
    ensures { result ≡ eqb (judged claim) 0 }
{
    judge(claim).is_ok()
}

// Question 13.
fn all_pass(claims: &[Claim]) -> bool
    ensures { result ≡ all_pass claims.now }
{
    claims.iter().all(|claim| passes(*claim))
}

// A frame's claims, zeros past the count. Questions 10 to 13.
pub fn read_frame(bytes: &[u8]) -> Result<Frame, Refusal>
    ensures { framed_by result ≡ read_frame bytes.now }
{
    let count = heading(bytes)?;
    let mut claims = [Claim::NONE; Frame::CLAIMS];
    read_run(bytes, Frame::HEAD, &mut claims[..count]);
    if !all_pass(&claims[..count]) {
        return Err(Refusal::BadClaimInFrame);
    }
    Ok(Frame { claims, count })
}

// Questions 12 of n, 13 and 15: of a frame that passes them, how long it is.
#[tactic(auto, unfolding(crate::specs::Frame::countable))]
fn writable(frame: &Frame, room: usize) -> Result<usize, Refusal>
    ensures asked { number_told result ≡ first_no (write_frame_questions frame.now.claims frame.now.count room) }
    ensures long { IfOk result (λ n. (n ≡ frame_length frame.now.count) × (n ≤ room)) }
    ensures few { OnOk result (frame.now.count ≤ frame_limit) }
{
    let n = frame.count;
    if !countable(n) {
        return Err(Refusal::WrongFrameLength);
    }
    if !all_pass(&frame.claims[..n]) {
        return Err(Refusal::BadClaimInFrame);
    }
    let length = Frame::HEAD + Frame::CLAIM * n;
    if room < length {
        return Err(Refusal::OutputTooShort);
    }
    Ok(length)
}

// Writes a frame of its first claims, as many as its count says, to the front of a buffer. Questions 12 of n, 13 and 15.
pub fn write_frame(frame: Frame, out: &mut [u8]) -> Result<usize, Refusal>
    ensures { (length_by result ≡ write_frame frame.claims frame.count (length out.old))
        × (out.new ≡ frame_lent frame.claims frame.count out.old) }
{
    let n = frame.count;
    let length = writable(&frame, out.len())?;
    out[..Frame::HEAD].copy_from_slice(&[FIRST, SECOND, VERSION, n as u8]);
    write_run(out, Frame::HEAD, &frame.claims[..n]);
    Ok(length)
}
