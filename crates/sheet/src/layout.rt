// The lines of a sheet, put into a buffer that has room for them, each piece where the one before it ended.
ghost use Rattle.std.specs.Prelude.{◌≡◌, ◌++◌, ◌+◌, ◌≤◌, length};
ghost use Rattle.keys.specs.Place.{put_at};
ghost use Rattle.text.specs.Decimal.{decimal};
ghost use Rattle.sheet.specs.Sheet.{line_size, field_width, number_width, spaces, right_aligned, field, row, line, head_line};
ghost use Rattle.sheet.specs.Sheet.{rows, page, lines_text, sheet_text};
ghost use Rattle.sheet.specs.Laid.{HeadGiven, PageGiven, SheetGiven};
ghost use Rattle.sheet.specs.Puts.{Puts};

use crate::size::{FIELD, NUMBER, PAGE, ROW, WIDTH, page_count};
use text::{put_bytes, put_decimal_before};

// A buffer, and where what was put into it ends. A type of this crate's own, as the rehearsal's page is: methods stand in the crate of their type.
#[derive(Drop)]
struct Sheet<'a> {
    out: &'a mut [u8],
    end: usize,
}

impl Sheet<'_> {
    // Some characters.
    fn bytes(&mut self, text: &[u8])
        requires { self.old.end + length text.now ≤ length self.old.out.now }
        ensures { Puts self.old text.now (length text.now) self.new }
    {
        self.end = put_bytes(self.out, self.end, text);
    }

    // So many spaces.
    fn spaces(&mut self, n: usize)
        requires { self.old.end + n ≤ length self.old.out.now }
        ensures { Puts self.old (spaces n) n self.new }
    {
        let end = self.end + n;
        self.out[self.end..end].fill(b' ');
        self.end = end;
    }

    // A number, right-aligned: its digits, and then what is left before them.
    fn right(&mut self, width: usize, n: u64)
        requires { (length (decimal n) ≤ width) × (self.old.end + width ≤ length self.old.out.now) }
        ensures { Puts self.old (right_aligned width n) width self.new }
    {
        let end = self.end + width;
        let start = put_decimal_before(self.out, end, n);
        self.spaces(start - self.end);
        self.end = end;
    }

    // The field of the key at a place of some keys.
    fn field(&mut self, keys: &[u64], i: usize)
        requires { self.old.end + field_width ≤ length self.old.out.now }
        ensures { Puts self.old (field keys.now i) field_width self.new }
    {
        match keys.get(i) {
            Some(key) => self.right(FIELD, *key),
            None => self.spaces(FIELD),
        }
    }

    // The line of the first three of some keys. Written out: the last of the three has the line feed behind it.
    fn row(&mut self, keys: &[u64])
        requires { self.old.end + line_size ≤ length self.old.out.now }
        ensures { Puts self.old (line (row keys.now)) line_size self.new }
    {
        self.field(keys, 0);
        self.bytes(b" ");
        self.field(keys, 1);
        self.bytes(b" ");
        self.field(keys, 2);
        self.bytes(b"\n");
    }

    // A word, and a number right-aligned behind it.
    fn numbered(&mut self, word: &[u8], n: u64)
        requires { (length (decimal n) ≤ number_width)
            × (self.old.end + (length word.now + number_width) ≤ length self.old.out.now) }
        ensures { Puts self.old (word.now ++ right_aligned number_width n) (length word.now + number_width) self.new }
    {
        self.bytes(word);
        self.right(NUMBER, n);
    }

    // The line above a page.
    fn head(&mut self, number: usize, pages: usize)
        requires { HeadGiven number pages × (self.old.end + line_size ≤ length self.old.out.now) }
        ensures { Puts self.old (line (head_line number pages)) line_size self.new }
    {
        let end = self.end + WIDTH;
        self.numbered(b"page ", number as u64);
        self.numbered(b" of ", pages as u64);
        self.spaces(end - self.end);
        self.bytes(b"\n");
    }

    // The lines of some keys.
    fn rows(&mut self, keys: &[u64])
        requires { self.old.end + length (lines_text (rows keys.now)) ≤ length self.old.out.now }
        ensures { Puts self.old (lines_text (rows keys.now)) (length (lines_text (rows keys.now))) self.new }
    {
        for row in keys.chunks(ROW) {
            self.row(row);
        }
    }

    // A page of these keys, and the line above it.
    fn page(&mut self, keys: &[u64], number: usize, pages: usize)
        requires { PageGiven self.old.end keys.now number pages (length self.old.out.now) }
        ensures { Puts self.old (lines_text (page number pages keys.now))
            (length (lines_text (page number pages keys.now))) self.new }
    {
        self.head(number, pages);
        self.rows(keys);
    }
}

// The sheet of some keys, page after page, at the front of a buffer.
pub(crate) fn put_sheet(out: &mut [u8], keys: &[u64])
    requires { SheetGiven keys.now (length out.old) }
    ensures { out.new ≡ put_at out.old 0 (sheet_text keys.now) }
{
    let pages = page_count(keys.len());
    let mut sheet = Sheet { out, end: 0 };
    if keys.is_empty() {
        sheet.page(keys, 1, pages);
        return;
    }
    for (i, page) in keys.chunks(PAGE).enumerate() {
        sheet.page(page, i + 1, pages);
    }
}
