// The lent run of transcript records, as a slice of delivery structs (document 01, "A round"): a record stored, a record read, and the round over them.
// The round's core works on words (`transcript`). Its words stand in a local array here, ten for each key that a store can hold, and each record is stored
// once.
ghost use Rattle.std.specs.Prelude.{◌≡◌, length, set, get_or};
ghost use Rattle.rule.specs.Answer.{met_by};
ghost use Rattle.rule.specs.Call.{met, met_lent};
ghost use Rattle.rounds.specs.Log.{no_delivery, delivery_in, copied, front_records, front_words, recorded_by, recorded};

use claims::Refusal;
use keys::Store;
use rule::Delivery;
use transcript::{RECORD, claim_in, round_words};

// The words of all the records that a round can fill.
const WORDS: usize = RECORD * Delivery::RECORDS;

// Stores one record. Past the end nothing changes. By an index: of a slice that was written through `get_mut` a proof knows no place.
pub fn put(log: &mut [Delivery], at: usize, delivery: Delivery)
    ensures { log.new ≡ set log.old at delivery }
{
    if at < log.len() {
        log[at] = delivery;
    }
}

// Reads one record. Past the end it is the record of zeros.
pub fn get(log: &[Delivery], at: usize) -> Delivery
    ensures { result ≡ get_or log.now at no_delivery }
{
    log.get(at).copied().unwrap_or(Delivery::NONE)
}

// The record that lies in words, and the record of zeros past the last one. `claim_in` asks the same of the place, since it is public and total.
#[tactic(auto, unfolding(crate::specs::Log::delivery_in))]
fn delivery_in(words: &[u64], at: usize) -> Delivery
    ensures { result ≡ delivery_in words.now at }
{
    if at < words.len() / RECORD {
        let sender = words[at * RECORD];
        let claim = claim_in(words, at);
        return Delivery {
            sender: (sender % 256) as u8,
            claim,
        };
    }
    Delivery::NONE
}

// Stores the first n records that lie in words. By `put` and `delivery_in`, which say what they do at any place.
fn copy_out(log: &mut [Delivery], words: &[u64], n: usize)
    ensures { log.new ≡ copied n words.now log.old }
{
    for i in 0..n {
        put(log, i, delivery_in(words, i));
    }
}

// A round on the words of so many records, or of all that there are words for.
fn round_front(
    left: &mut Store,
    right: &mut Store,
    words: &mut [u64],
    records: usize,
) -> Result<usize, Refusal>
    ensures told { met_by left.new right.new result ≡ met left.old right.old (front_records words.old records) }
    ensures written { words.new ≡ front_words left.old right.old words.old records }
{
    let n = records.min(words.len() / RECORD);
    round_words(left, right, &mut words[..n * RECORD])
}

// A round, whose deliveries are written to the records lent. Asks 1 (left, then right), 8 and 9.
pub fn round(left: &mut Store, right: &mut Store, log: &mut [Delivery]) -> Result<usize, Refusal>
    ensures told { met_by left.new right.new result ≡ met left.old right.old (length log.old) }
    ensures written { log.new ≡ met_lent left.old right.old log.old }
{
    let mut words = [0; WORDS];
    let deliveries = round_front(left, right, &mut words, log.len())?;
    copy_out(log, &words, deliveries);
    Ok(deliveries)
}

// How many deliveries a round made, and one record of its transcript.
#[derive(Clone, Copy)]
pub struct Recorded {
    pub deliveries: usize,
    pub delivery: Delivery,
}

// A round over records of its own, as many as a round can fill, and the one at some place; past the deliveries it is the record of zeros.
// Asks 1 (left, then right) and 8.
pub fn round_record(left: &mut Store, right: &mut Store, at: usize) -> Result<Recorded, Refusal>
    ensures { recorded_by left.new right.new result ≡ recorded left.old right.old at }
{
    let mut log = [Delivery::NONE; Delivery::RECORDS];
    let deliveries = round(left, right, &mut log)?;
    let delivery = get(&log, at);
    Ok(Recorded {
        deliveries,
        delivery,
    })
}
