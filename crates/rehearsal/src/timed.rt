// For measurements alone: the rehearsal of two images as a call for programs in other languages, to which `rehearsal_c` exports it.
ghost use Rattle.std.specs.Prelude.{◌≡◌};
ghost use Rattle.rule.specs.Call.{records_in};
ghost use Rattle.rehearsal.specs.Rehearsal.{rehearsed, rehearsed_words};

use crate::run::rehearse;

// Runs a round of the stores of two images end to end, its records in the lent words, and returns the number of deliveries, 0 on a refusal. Asks what
// `rehearse` asks.
pub fn minutefrost_timed_round(input: &[u8], words: &mut [u64]) -> usize
    ensures { (result ≡ (rehearsed input.now (records_in words.old)).deliveries)
        × (words.new ≡ rehearsed_words input.now words.old) }
{
    rehearse(input, words).map_or(0, |told| told.deliveries)
}
