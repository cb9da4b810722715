// The sizes of a sheet, in keys and in bytes.
ghost use Rattle.std.specs.Prelude.{◌≡◌, ◌≤◌};
ghost use Rattle.keys.specs.Store.{limit};
ghost use Rattle.sheet.specs.Sheet.{page_count, sheet_length};
ghost use Rattle.sheet.specs.Call.{sheet_limit};

use keys::Store;

// The characters of a field, and the keys of a row.
pub(crate) const FIELD: usize = 20;

pub(crate) const ROW: usize = 3;

// The characters of a page's number, and of the number of pages.
pub(crate) const NUMBER: usize = 4;

// The keys of a full page, which has 40 rows.
pub(crate) const PAGE: usize = ROW * 40;

// The characters of a line, and its bytes, with the line feed.
pub(crate) const WIDTH: usize = ROW * FIELD + (ROW - 1);

pub(crate) const LINE: usize = WIDTH + 1;

// The longest sheet: that of a full store. Written out beside `sheet_length`, since a constant calls no function of ours.
pub const SHEET: usize = LINE
    * ((Store::LIMIT + (PAGE - 1)) / PAGE + (Store::LIMIT + (ROW - 1)) / ROW);

// How many pages so many keys take: an empty store is one.
pub(crate) fn page_count(keys: usize) -> usize
    requires { keys ≤ limit }
    ensures { result ≡ page_count keys }
{
    keys.div_ceil(PAGE).max(1)
}

// How long the sheet of so many keys is.
pub(crate) fn sheet_length(keys: usize) -> usize
    requires { keys ≤ limit }
    ensures { (result ≡ sheet_length keys) × (result ≤ sheet_limit) }
{
    LINE * (page_count(keys) + keys.div_ceil(ROW))
}
