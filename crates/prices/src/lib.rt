// The price list of C-11: whether a lent one is in range, the price of a call to some digits, and the row that is added.
#![tactic(auto)]

ghost use Rattle.std.specs.Prelude.{◌≡◌, true, false, ◌≤◌, ◌<◌, length, MatchResult};
ghost use Rattle.meaning.specs.Sizes.{RULE-WIDTH, PRICE-BODY, PRICE-ROOM};
ghost use Rattle.meaning.specs.Prices.{row_given, row_in_range};
ghost use Rattle.meaning.specs.Answers.{number_of_provisioned};
ghost use Rattle.meaning.specs.Basics.{all};
ghost use Rattle.meaning.specs.declared.Refusal.TheVariants.{Range};
ghost use Rattle.buffer.specs.Slots.{insert_at};
ghost use Rattle.prices.specs.Layout.{row_image, prices_image, row_of, rows_in, prices_in_range};
ghost use Rattle.prices.specs.Examined.{row_test, rows_pass};
ghost use Rattle.prices.specs.Edits.{RowPrice, RowSlot, PlacesRow};
ghost use Rattle.prices.specs.Promises.{GivesPrice, AddsPrice};

use meaning::sizes::{
    CLASS_AT, CODE_BYTES, LENGTH_AT, PREFIX_AT, PRICE_AT, PRICE_BODY, PRICE_END, PRICE_ROOM,
    PRICES_BYTES, ROWS_AT, RULE_WIDTH,
};
use meaning::{Refusal, RulePlace};

// The highest price per minute, in thousandths of a cent.
const PRICE_LIMIT: usize = 1000000;

// RANGE OF A LENT LIST

// Whether a slot has a prefix and a price in range, and 0 in its unused bytes.
#[tactic(auto, unfolding(crate::specs::Examined::row_test))]
fn row_passes(slot: &[u8; RULE_WIDTH]) -> bool
    ensures { result ≡ row_test slot.now }
{
    slot[CLASS_AT] == 0
        && slot[LENGTH_AT] == 0
        && slot[PRICE_END] == 0
        && blocks::digits_in_range(&slot[PREFIX_AT..LENGTH_AT], 0, 16)
        && buffer::quad(slot, PRICE_AT) <= PRICE_LIMIT
}

// Whether each slot passes.
fn slots_pass(slots: &[[u8; RULE_WIDTH]]) -> bool
    ensures { result ≡ all row_test slots.now }
{
    slots.iter().all(row_passes)
}

// Whether each slot passes, they are in prefix order, and the bytes behind them are 0. A row's slot is that of a rule, so
// rows are in prefix order as rules are in listing order.
#[tactic(auto, unfolding(crate::specs::Examined::rows_pass), using(crate::proofs::ImageLaws::slots_fit))]
fn rows_pass(slots: &[[u8; RULE_WIDTH]], free: &[u8]) -> bool
    ensures { result ≡ rows_pass slots.now free.now }
{
    slots_pass(slots) && examiner::rules_rise(slots) && examiner::is_free(free)
}

// Whether a lent price list is in range.
pub fn in_range(prices: &[u8]) -> bool
    ensures { result ≡ prices_in_range prices.now }
{
    if prices.len() != PRICES_BYTES {
        return false;
    }
    let count = buffer::word(prices, 0);
    if PRICE_ROOM < count {
        return false;
    }
    let end = ROWS_AT + RULE_WIDTH * count;
    let (slots, _) = prices[ROWS_AT..end].as_chunks::<RULE_WIDTH>();
    rows_pass(slots, &prices[end..])
}

// A lent price list that is in range.
#[derive(Clone, Copy)]
pub struct PriceList<'a> {
    pub memory: &'a [u8],
    ghost in_range: { prices_in_range memory.now ≡ true },
}

// The price list that a memory holds, where it is in range.
pub fn examine(memory: &[u8]) -> Result<PriceList<'_>, Refusal>
    ensures { MatchResult result (λ p. p.memory.now ≡ memory.now) (λ r. (r ≡ Range) × (prices_in_range memory.now ≡ false)) }
{
    if !in_range(memory) {
        return Err(Refusal::Range);
    }
    Ok(PriceList { memory })
}

// THE PRICE OF A CALL

impl<'a> PriceList<'a> {
    // The price in the row at a place.
    fn price_at(self, place: RulePlace) -> usize
        requires { place.0 < length (rows_in self.memory.now) }
        ensures { RowPrice self.entry.memory.now place.0 result }
    {
        let k = usize::from(place.0);
        buffer::quad(self.memory, ROWS_AT + RULE_WIDTH * k + PRICE_AT)
    }

    // The price per minute of a call to some digits, in thousandths of a cent: that of the longest prefix that fits.
    pub fn price_for(self, digits: &[u8]) -> Option<usize>
        ensures { GivesPrice self.entry.memory.now digits.now result }
    {
        let count = buffer::word(self.memory, 0);
        let place = narrowing::choose_among(&self.memory[ROWS_AT..], count, 0, 0, count, digits)?;
        Some(self.price_at(place))
    }
}

// A ROW ADDED

// Whether the row that a body gives is in range.
#[tactic(auto, unfolding(meaning::specs::Prices::row_in_range))]
fn row_in_range(body: &[u8]) -> bool
    requires { length body.now ≡ PRICE-BODY }
    ensures { result ≡ row_in_range body.now }
{
    blocks::digits_in_range(&body[..CODE_BYTES], 0, 16)
        && buffer::quad(body, CODE_BYTES) <= PRICE_LIMIT
}

// The slot of the row that a body gives.
fn row_slot(body: &[u8]) -> [u8; RULE_WIDTH]
    requires { (length body.now ≡ PRICE-BODY) × (row_in_range body.now ≡ true) }
    ensures { result ≡ row_image (row_given body.now) }
{
    let mut slot = [0; RULE_WIDTH];
    slot[PREFIX_AT..LENGTH_AT].copy_from_slice(&body[..CODE_BYTES]);
    slot[PRICE_AT..PRICE_END].copy_from_slice(&body[CODE_BYTES..]);
    slot
}

// A row's slot put in before the row at a place.
fn insert_row(prices: &mut [u8], place: RulePlace, slot: &[u8])
    requires list_in_range { (prices_in_range prices.old ≡ true) × (place.0 ≤ length (rows_in prices.old)) × (length (rows_in prices.old) < PRICE-ROOM) }
    requires row_slot { RowSlot slot.now }
    ensures { prices.new ≡ prices_image (insert_at place.0 (row_of slot.now) (rows_in prices.old)) }
{
    let count = buffer::word(prices, 0);
    let k = usize::from(place.0);
    buffer::insert_slot(&mut prices[ROWS_AT..], RULE_WIDTH, count, k, slot);
    buffer::put_word(prices, 0, count + 1);
}

// A row's slot put in at its place in prefix order, where its prefix is not held and a slot is free.
fn place_row(prices: &mut [u8], slot: &[u8]) -> Result<(), Refusal>
    requires list_in_range { prices_in_range prices.old ≡ true }
    requires row_slot { RowSlot slot.now }
    ensures { PlacesRow prices.old (row_of slot.now) prices.new (number_of_provisioned result) }
{
    let count = buffer::word(prices, 0);
    let Err(place) = filter::find(&prices[ROWS_AT..], count, slot) else {
        return Err(Refusal::Taken);
    };
    if count == PRICE_ROOM {
        return Err(Refusal::Full);
    }
    insert_row(prices, place, slot);
    Ok(())
}

// Adds the row that a body of just its length gives to a list that is known to be in range.
pub fn add_known(prices: &mut [u8], body: &[u8]) -> Result<(), Refusal>
    requires { (prices_in_range prices.old ≡ true) × (length body.now ≡ PRICE-BODY) }
    ensures { AddsPrice prices.old body.now prices.new (number_of_provisioned result) }
{
    if !row_in_range(body) {
        return Err(Refusal::Range);
    }
    place_row(prices, &row_slot(body))
}

// Adds a row to a lent list: CUT, RANGE, TAKEN, FULL.
pub fn add_price(prices: &mut [u8; PRICES_BYTES], body: &[u8]) -> Result<(), Refusal>
    ensures { AddsPrice prices.old body.now prices.new (number_of_provisioned result) }
{
    if body.len() < PRICE_BODY {
        return Err(Refusal::Cut);
    }
    if !in_range(prices) {
        return Err(Refusal::Range);
    }
    add_known(prices, &body[..PRICE_BODY])
}
