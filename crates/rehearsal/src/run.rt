// The rehearsal of an input: two images end to end, and one round of their stores.
ghost use Rattle.rehearsal.specs.Answer.{rehearsed_by};
ghost use Rattle.rehearsal.specs.Rehearsal.{Rehearsal};

use crate::answer::Rehearsed;
use claims::Refusal;
use transcript::round_words;
use wire::{image_length, read_image};

// The rehearsal of two images end to end, its records in the lent words, five to a record: sender, lo, hi, sum, cnt.
// Questions 14 and 1 of the first image, then of the second, then those of a round, 9 of the records that are lent.
pub fn rehearse(input: &[u8], words: &mut [u64]) -> Result<Rehearsed, Refusal>
    ensures { Rehearsal input.now words.old (rehearsed_by result) words.new }
{
    let n = image_length(input)?;
    let mut left = read_image(&input[..n])?.store;
    let mut right = read_image(&input[n..])?.store;
    let deliveries = round_words(&mut left, &mut right, words)?;
    Ok(Rehearsed {
        left: left.count,
        right: right.count,
        deliveries,
    })
}
