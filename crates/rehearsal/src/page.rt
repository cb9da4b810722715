// What the program prints, put into a buffer piece by piece. Each piece is put where the one before it ended.
ghost use Rattle.std.specs.Prelude.{◌≡◌, ◌+◌, ◌*◌, ◌≤◌, length};
ghost use Rattle.rule.specs.Call.{record_width};
ghost use Rattle.text.specs.Put.{Put};
ghost use Rattle.rehearsal.specs.Page.{Puts};
ghost use Rattle.rehearsal.specs.Text.{field, labelled, letter, row_at, rows, last_line};
ghost use Rattle.rehearsal.specs.Text.{printed, field_limit, line_limit, last_limit, text_limit};

use crate::answer::Rehearsed;
use crate::run::rehearse;
use text::{put_bytes, put_decimal, put_refused};
use transcript::RECORD;

// A buffer, and where what was put into it ends.
#[derive(Drop)]
struct Page<'a> {
    out: &'a mut [u8],
    end: usize,
}

// "L or R for the sender". An `if` on a word: a record's sender is a word of the transcript.
fn letter(sender: u64) -> u8
    ensures { result ≡ letter sender }
{
    if sender == 0 { b'L' } else { b'R' }
}

impl Page<'_> {
    // Some characters.
    fn bytes(&mut self, text: &[u8])
        requires { self.old.end + length text.now ≤ length self.old.out.now }
        ensures { Puts self.old text.now (length text.now) self.new }
    {
        self.end = put_bytes(self.out, self.end, text);
    }

    // A number, and the space before it.
    fn field(&mut self, n: u64)
        requires { self.old.end + field_limit ≤ length self.old.out.now }
        ensures { Puts self.old (field n) field_limit self.new }
    {
        self.bytes(b" ");
        self.end = put_decimal(self.out, self.end, n);
    }

    // A word, and a number after it.
    fn labelled(&mut self, word: &[u8], n: u64)
        requires { self.old.end + (length word.now + field_limit) ≤ length self.old.out.now }
        ensures { Puts self.old (labelled word.now n) (length word.now + field_limit) self.new }
    {
        self.bytes(word);
        self.field(n);
    }

    // One line: the words of a record.
    fn line(&mut self, row: &[u64; RECORD])
        requires { self.old.end + line_limit ≤ length self.old.out.now }
        ensures { Puts self.old (row_at row.now 0) line_limit self.new }
    {
        let [sender, lo, hi, sum, cnt] = *row;
        self.bytes(&[letter(sender)]);
        self.field(lo);
        self.field(hi);
        self.field(sum);
        self.field(cnt);
        self.bytes(b"\n");
    }

    // One line a delivery: the first n records of some words.
    fn lines(&mut self, words: &[u64], n: usize)
        requires { (self.old.end + line_limit * n ≤ length self.old.out.now)
            × (n * record_width ≤ length words.now) }
        ensures { Puts self.old (rows n words.now) (line_limit * n) self.new }
    {
        let (records, _) = words.as_chunks::<RECORD>();
        for row in &records[..n] {
            self.line(row);
        }
    }

    // The last line: both counts and the deliveries.
    fn last(&mut self, told: Rehearsed)
        requires { self.old.end + last_limit ≤ length self.old.out.now }
        ensures { Puts self.old (last_line told.left told.right told.deliveries) last_limit self.new }
    {
        self.labelled(b"left", told.left as u64);
        self.labelled(b" right", told.right as u64);
        self.labelled(b" claims", told.deliveries as u64);
        self.bytes(b"\n");
    }
}

// What the program prints for an input, put at the front of a buffer, and how long it is.
pub fn rehearse_text(input: &[u8], out: &mut [u8; Rehearsed::TEXT]) -> usize
    ensures { Put out.old 0 (printed input.now) text_limit result out.new }
{
    let mut words = [0; Rehearsed::WORDS];
    match rehearse(input, &mut words) {
        Ok(told) => {
            let mut page = Page { out, end: 0 };
            page.lines(&words, told.deliveries);
            page.last(told);
            page.end
        }
        Err(refusal) => put_refused(out, refusal.number()),
    }
}
