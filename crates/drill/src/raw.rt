// Words in bytes, high byte first.
ghost use Rattle.std.specs.Prelude.{length, ◌≡◌};
ghost use Rattle.drill.specs.Request.{reply_space};

use claims::Store;

// The bytes of a word.
pub const WORD: usize = 8;

// The most words of a request: two full stores and what their round is lent are fourteen for each key, and a few.
pub const MOST: usize = 16 * Store::LIMIT;

// The most bytes of a request: the longest that is lent is a full sheet, of less than 22 for each key.
pub const BYTES: usize = 32 * Store::LIMIT;

// The bytes of so many words, and of the mark before a reply's.
const SPACE: usize = WORD * MOST + 1;

// Room for those bytes, marks until words are put there. The check counts so many bytes slowly, so it does that here alone.
pub fn space() -> [u8; SPACE]
    ensures { reply_space ≡ length result }
{
    [b'='; SPACE]
}

// Reads words from bytes, as many as there are of both.
pub fn decode(bytes: &[u8], words: &mut [u64]) {
    for (word, chunk) in words.iter_mut().zip(bytes.as_chunks::<WORD>().0) {
        *word = u64::from_be_bytes(*chunk);
    }
}

// Writes words to bytes, as many as there are of both.
pub fn encode(words: &[u64], bytes: &mut [u8]) {
    for (word, chunk) in words.iter().zip(bytes.as_chunks_mut::<WORD>().0) {
        *chunk = word.to_be_bytes();
    }
}
