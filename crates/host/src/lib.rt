// What the kiosk daemon calls: six calls on images and frames (document 01, "Host calls"; document 02, slips 4 and 9), and one for planners (slip 5). `host_c`
// exports them to other languages.
#![tactic(auto)]

mod enter;
mod join;
mod load;
mod read;
mod save;
mod sent;
mod sign;
mod turn;

ghost use Rattle.std.specs.Prelude.{◌≡◌, length};
ghost use Rattle.host.specs.Call.{opening_told, image_counted, image_sheet, image_sheet_out, frame_taken, frame_taken_out, key_entered, key_entered_out};
ghost use Rattle.host.specs.Call.{images_joined, images_joined_out, image_beaten, image_beaten_out, image_beaten_frames};

use crate::enter::enter;
use crate::join::join;
use crate::read::{count, write_sheet};
use crate::sent::beat;
use crate::sign::told;
use crate::turn::take_frame;
use opening::opening_cost;

// Takes an image and a frame, takes each claim in turn, writes the new image to the front of `out` and returns its length; or minus the number of the
// first question answered no, and then nothing is written. Asks 14, 1, 10 to 13, 6 claim by claim, and 15.
pub fn minutefrost_take_frame(image: &[u8], frame: &[u8], out: &mut [u8]) -> i64
    ensures { (result ≡ frame_taken image.now frame.now (length out.old))
        × (out.new ≡ frame_taken_out image.now frame.now out.old) }
{
    told(take_frame(image, frame, out))
}

// Takes an image and a key, enters the key, writes the new image to the front of `out` and returns its length; or minus the number of the first question
// answered no, and then nothing is written. Asks 14, 1, 6 and 15. Pending claims stay, save those that fail 16.
pub fn minutefrost_enter(image: &[u8], key: u64, out: &mut [u8]) -> i64
    ensures { (result ≡ key_entered image.now key (length out.old))
        × (out.new ≡ key_entered_out image.now key out.old) }
{
    told(enter(image, key, out))
}

// Takes two images, joins their nodes, writes the image of the joined node to the front of `out` and returns its length; or minus the number of the first
// question answered no, and then nothing is written. Asks 14 and 1 of the first image, then of the second, 8 and 15. Pending claims that fail 16 are left out of
// either.
pub fn minutefrost_join(first: &[u8], second: &[u8], out: &mut [u8]) -> i64
    ensures { (result ≡ images_joined first.now second.now (length out.old))
        × (out.new ≡ images_joined_out first.now second.now out.old) }
{
    told(join(first, second, out))
}

// How many keys an image holds; or minus the number of the first question answered no. Asks 14 and 1.
pub fn minutefrost_count(image: &[u8]) -> i64
    ensures { result ≡ image_counted image.now }
{
    told(count(image))
}

// Takes an image, writes the wall sheet of the keys that it holds to the front of `out` and returns its length; or minus the number of the first question
// answered no, and then nothing is written. Asks 14, 1, and 15 for the sheet's own length.
pub fn minutefrost_sheet(image: &[u8], out: &mut [u8]) -> i64
    ensures { (result ≡ image_sheet image.now (length out.old))
        × (out.new ≡ image_sheet_out image.now out.old) }
{
    told(write_sheet(image, out))
}

// The deliveries of a round that fills an empty store with so many keys; or minus the number of the first question answered no. Asks 17.
pub fn minutefrost_opening_cost(keys: usize) -> i64
    ensures { result ≡ opening_told keys }
{
    told(opening_cost(keys))
}

// Takes an image, runs a beat, writes the new image to the front of `out` and the claims to the front of `frames`, four to a frame and the rest in a last
// one, and returns the length of the frames; or minus the number of the first question answered no, and then nothing is written. Asks 14, 1 and 15.
pub fn minutefrost_beat(image: &[u8], out: &mut [u8], frames: &mut [u8]) -> i64
    ensures { (result ≡ image_beaten image.now (length out.old) (length frames.old))
        × (out.new ≡ image_beaten_out image.now out.old (length frames.old))
        × (frames.new ≡ image_beaten_frames image.now (length out.old) frames.old) }
{
    told(beat(image, out, frames))
}
