// The calls that write a sheet.
ghost use Rattle.std.specs.Prelude.{◌≡◌, ◌≤◌, length};
ghost use Rattle.keys.specs.Store.{limit};
ghost use Rattle.wire.specs.Answer.{length_by};
ghost use Rattle.text.specs.Put.{Put};
ghost use Rattle.sheet.specs.Sheet.{sheet_text};
ghost use Rattle.sheet.specs.Call.{sheet_limit, write_sheet, sheet_lent, write_sheet_in, sheet_in_lent};

use crate::layout::put_sheet;
use crate::size::sheet_length;
use claims::Refusal;
use keys::{Store, summed_in};

// Puts the sheet of some keys at the front of a buffer that has room for any, and says how long it is. Not by `write_sheet_in`: nothing is refused here.
pub(crate) fn put_whole(out: &mut [u8], keys: &[u64]) -> usize
    requires { (length keys.now ≤ limit) × (sheet_limit ≤ length out.old) }
    ensures { Put out.old 0 (sheet_text keys.now) sheet_limit result out.new }
{
    put_sheet(out, keys);
    sheet_length(keys.len())
}

// Writes the sheet of a lent run of keys to the front of a buffer, for any content: question 1 is not put, but more keys than a store has are refused with
// its number. Asks 15 for the sheet's own length.
pub fn write_sheet_in(keys: &[u64], out: &mut [u8]) -> Result<usize, Refusal>
    ensures { (length_by result ≡ write_sheet_in keys.now (length out.old))
        × (out.new ≡ sheet_in_lent keys.now out.old) }
{
    if Store::LIMIT < keys.len() {
        return Err(Refusal::OutOfOrder);
    }
    let length = sheet_length(keys.len());
    if out.len() < length {
        return Err(Refusal::OutputTooShort);
    }
    put_sheet(out, keys);
    Ok(length)
}

// Writes the sheet of a store to the front of a buffer, and returns its length. Questions 1, and 15 for the sheet's own length.
pub fn write_sheet(store: &Store, out: &mut [u8]) -> Result<usize, Refusal>
    ensures { (length_by result ≡ write_sheet store.now (length out.old))
        × (out.new ≡ sheet_lent store.now out.old) }
{
    if !summed_in(store.lent()) {
        return Err(Refusal::OutOfOrder);
    }
    write_sheet_in(&store.keys[..store.count], out)
}
