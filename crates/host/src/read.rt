// What is told of one image: how many keys it holds, and their wall sheet.
ghost use Rattle.std.specs.Prelude.{◌≡◌, length};
ghost use Rattle.host.specs.Call.{image_counted, image_sheet, image_sheet_out};
ghost use Rattle.host.specs.Known.{Tells};

use crate::load::load;
use claims::Refusal;
use keys::Store;
use sheet::write_sheet_in;

// How many keys an image holds. Asks 14 and 1.
pub(crate) fn count(image: &[u8]) -> Result<usize, Refusal>
    ensures { Tells (image_counted image.now) result }
{
    let mut keys = [0; Store::LIMIT];
    let node = load(image, &mut keys)?;
    Ok(node.held)
}

// Writes the wall sheet of the keys that an image holds, and returns its length. Asks 14, 1, and 15 for the sheet's own length.
pub(crate) fn write_sheet(image: &[u8], out: &mut [u8]) -> Result<usize, Refusal>
    ensures { (Tells (image_sheet image.now (length out.old)) result) × (out.new ≡ image_sheet_out image.now out.old) }
{
    let mut keys = [0; Store::LIMIT];
    let node = load(image, &mut keys)?;
    write_sheet_in(&keys[..node.held], out)
}
