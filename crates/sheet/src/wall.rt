// What the program `wallsheet` prints.
ghost use Rattle.text.specs.Put.{Put};
ghost use Rattle.sheet.specs.Call.{sheet_limit};
ghost use Rattle.sheet.specs.Wall.{wall_text};

use crate::call::put_whole;
use crate::size::SHEET;
use text::put_refused;
use wire::read_image;

// What the program prints for an image, put at the front of a buffer, and how long it is. Questions 14 and 1.
pub fn wall_text(image: &[u8], out: &mut [u8; SHEET]) -> usize
    ensures { Put out.old 0 (wall_text image.now) sheet_limit result out.new }
{
    match read_image(image) {
        Ok(node) => put_whole(out, &node.store.keys[..node.store.count]),
        Err(refusal) => put_refused(out, refusal.number()),
    }
}
