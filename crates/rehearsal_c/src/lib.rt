// For measurements alone: the rehearsal of two images, for programs in other languages. No daemon links it.
#![tactic(auto)]

ghost use Rattle.std.specs.Prelude.{◌≡◌};
ghost use Rattle.rule.specs.Call.{records_in};
ghost use Rattle.rehearsal.specs.Rehearsal.{rehearsed, rehearsed_words};

// Runs a round of the stores of two images end to end, its records in the lent words, and returns the number of deliveries, 0 on a refusal. Asks what
// `rehearse` asks.
#[unsafe(no_mangle)]
pub extern "C" fn minutefrost_timed_round(input: &[u8], words: &mut [u64]) -> usize
    ensures { (result ≡ (rehearsed input.now (records_in words.old)).deliveries)
        × (words.new ≡ rehearsed_words input.now words.old) }
{
    rehearsal::minutefrost_timed_round(input, words)
}
