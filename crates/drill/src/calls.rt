// Each call, on the words and bytes of a request: its arguments are read, the call is made, and its answer is put in place. What a call answers is the count
// of its answer, or the number of the first question answered no.
ghost use Rattle.std.specs.Prelude.{◌≤◌, length};
ghost use Rattle.drill.specs.Request.{left, past_left, past_node, past_both};
ghost use Rattle.drill.specs.Call.{needed};

use crate::call::Call;
use crate::card;
use claims::{Answer, Claim, Refusal, Store};
use rule::{Delivery, Node, Table};
use wire::Frame;
use words::{claim_at, put_claim};

// What a call answers. Each function below says how many words it reads and writes, which `Call::needed` told: a slice has any number.
type Told = Result<usize, Refusal>;

// Makes one call; none where there is none of this number, where it needs more words than these, or where more is lent than is there.
pub fn serve(number: u64, words: &mut [u64], bytes: &mut [u8]) -> Option<()> {
    let call = Call::try_from(number).ok()?;
    if words.len() < call.needed() {
        return None;
    }
    let (number, count) = match make_call(call, words, bytes)? {
        Ok(count) => (0, count),
        Err(refusal) => (refusal.number(), 0),
    };
    words[card::NUMBER] = number as u64;
    words[card::COUNT] = count as u64;
    Some(())
}

fn make_call(call: Call, words: &mut [u64], bytes: &mut [u8]) -> Option<Told>
    requires { needed call ≤ length words.old }
{
    let lent = bytes.get_mut(..words[card::SECOND] as usize);
    Some(match call {
        Call::Enter => enter(words),
        Call::Make => make(words),
        Call::Reply => reply(words),
        Call::Judge => judge(words),
        Call::Take => take(words),
        Call::Beat => return beat(words),
        Call::RoundWords => return round_words(words),
        Call::ReadFrame => read_frame(words, lent?),
        Call::WriteFrame => write_frame(words, lent?),
        Call::ReadImage => read_image(words, lent?),
        Call::WriteImage => write_image(words, lent?),
        Call::ImageLength => wire::image_length(lent?),
        Call::Ordered => ordered(words),
        Call::Empty => empty(words),
        Call::RoundRecord => round_record(words),
        Call::WriteSheet => write_sheet(words, lent?),
        Call::OpeningCost => opening_cost(words),
    })
}

fn enter(words: &mut [u64]) -> Told
    requires { past_left ≤ length words.old }
{
    let mut store = card::store_at(words, card::LEFT);
    let entered = claims::enter(&mut store, words[card::FIRST]);
    card::put_store(words, card::LEFT, &store);
    entered.map(|()| 0)
}

fn make(words: &mut [u64]) -> Told
    requires { past_left ≤ length words.old }
{
    let store = card::store_at(words, card::LEFT);
    let first = words[card::FIRST] as usize;
    let last = words[card::SECOND] as usize;
    let made = claims::make(&store, first, last);
    put_claim(words, card::CLAIMS, made.unwrap_or(Claim::NONE));
    made.map(|_| 0)
}

fn reply(words: &mut [u64]) -> Told
    requires { past_left ≤ length words.old }
{
    let mut store = card::store_at(words, card::LEFT);
    let replied = claims::reply(&mut store, claim_at(words, card::CLAIMS));
    card::put_store(words, card::LEFT, &store);
    put_reply(words, replied)
}

// Puts a reply's claims behind the first one, and tells its kind.
fn put_reply(words: &mut [u64], replied: Result<Answer, Refusal>) -> Told
    requires { left ≤ length words.old }
{
    let none = Claim::NONE;
    let (told, first, second) = match replied {
        Ok(Answer::Match) => (Ok(0), none, none),
        Ok(Answer::Ask(own)) => (Ok(1), own, none),
        Ok(Answer::One(claim)) => (Ok(2), claim, none),
        Ok(Answer::Two(one, two)) => (Ok(3), one, two),
        Err(refusal) => (Err(refusal), none, none),
    };
    put_claim(words, card::CLAIMS + Claim::WORDS, first);
    put_claim(words, card::CLAIMS + 2 * Claim::WORDS, second);
    told
}

fn judge(words: &[u64]) -> Told {
    claims::judge(claim_at(words, card::CLAIMS)).map(|()| 0)
}

fn take(words: &mut [u64]) -> Told
    requires { past_node ≤ length words.old }
{
    let mut node = card::node_in(words);
    let taken = nodes::take(&mut node, claim_at(words, card::CLAIMS));
    card::put_node(words, &node);
    taken.map(|()| 0)
}

fn beat(words: &mut [u64]) -> Option<Told>
    requires { past_node ≤ length words.old }
{
    let end = card::end_of_lent(words, card::PAST_NODE)?;
    let mut node = card::node_in(words);
    let written = beats::beat(&mut node, &mut words[card::PAST_NODE..end]);
    card::put_node(words, &node);
    Some(written)
}

fn round_words(words: &mut [u64]) -> Option<Told>
    requires { past_both ≤ length words.old }
{
    let end = card::end_of_lent(words, card::PAST_BOTH)?;
    let mut left = card::store_at(words, card::LEFT);
    let mut right = card::store_at(words, card::RIGHT);
    let lent = &mut words[card::PAST_BOTH..end];
    let deliveries = transcript::round_words(&mut left, &mut right, lent);
    card::put_store(words, card::LEFT, &left);
    card::put_store(words, card::RIGHT, &right);
    Some(deliveries)
}

fn round_record(words: &mut [u64]) -> Told
    requires { past_both ≤ length words.old }
{
    let mut left = card::store_at(words, card::LEFT);
    let mut right = card::store_at(words, card::RIGHT);
    let at = words[card::FIRST] as usize;
    let recorded = rounds::round_record(&mut left, &mut right, at);
    card::put_store(words, card::LEFT, &left);
    card::put_store(words, card::RIGHT, &right);
    let delivery = recorded.map_or(Delivery::NONE, |record| record.delivery);
    put_claim(words, card::CLAIMS, delivery.claim);
    words[card::CLAIMS + Claim::WORDS] = delivery.sender as u64;
    recorded.map(|record| record.deliveries)
}

fn read_frame(words: &mut [u64], lent: &[u8]) -> Told
    requires { left ≤ length words.old }
{
    let read = wire::read_frame(lent);
    let four = read.map_or([Claim::NONE; Frame::CLAIMS], |frame| frame.claims);
    card::put_claims(words, card::CLAIMS, &four);
    read.map(|frame| frame.count)
}

fn write_frame(words: &[u64], lent: &mut [u8]) -> Told
    requires { left ≤ length words.now }
{
    let claims = card::claims_at(words, card::CLAIMS);
    let count = words[card::FIRST] as usize;
    wire::write_frame(Frame { claims, count }, lent)
}

fn read_image(words: &mut [u64], lent: &[u8]) -> Told
    requires { past_node ≤ length words.old }
{
    let empty = Node {
        store: Store::EMPTY,
        pending: Table::EMPTY,
    };
    let read = wire::read_image(lent);
    card::put_node(words, &read.unwrap_or(empty));
    read.map(|_| 0)
}

fn write_image(words: &[u64], lent: &mut [u8]) -> Told
    requires { past_node ≤ length words.now }
{
    wire::write_image(&card::node_in(words), lent)
}

fn write_sheet(words: &[u64], lent: &mut [u8]) -> Told
    requires { past_left ≤ length words.now }
{
    sheet::write_sheet(&card::store_at(words, card::LEFT), lent)
}

fn opening_cost(words: &[u64]) -> Told
    requires { left ≤ length words.now }
{
    opening::opening_cost(words[card::FIRST] as usize)
}

fn ordered(words: &[u64]) -> Told
    requires { past_node ≤ length words.now }
{
    Ok(nodes::ordered(&card::node_in(words)) as usize)
}

fn empty(words: &mut [u64]) -> Told
    requires { past_left ≤ length words.old }
{
    card::put_store(words, card::LEFT, &Store::empty());
    Ok(0)
}
