// Charging a call record: its range, what it is due by the plan and the price list, and its entry in the ledger.
#![tactic(auto)]

ghost use Rattle.std.specs.Prelude.{◌≡◌, true, ◌*◌, ◌≤◌, length};
ghost use Rattle.std.proofs.Math.Option.{some};
ghost use Rattle.meaning.specs.Sizes.{CALL-BYTES};
ghost use Rattle.meaning.specs.Prices.{price_for};
ghost use Rattle.meaning.specs.Ledger.{UNIT-LIMIT, ledger_of, ledger_in_range};
ghost use Rattle.meaning.specs.Charges.{SECONDS-LIMIT, call_record_of, call_in_range, priced_by, times_price, due_on, number_in};
ghost use Rattle.meaning.specs.Answers.{number_of_refusal};
ghost use Rattle.prices.specs.Layout.{rows_in};
ghost use Rattle.number.specs.Answering.{ANSWER-BYTES};
ghost use Rattle.charging.specs.Dues.{GivesDue, whole_behind, refusal_of_charge, Charges, ChargesIf};
ghost use Rattle.charging.specs.Promises.{head_in_range, refused_as, Chargeable, Priceable, HoldsTaken, TakesKnown, Takes};

use meaning::refusals::ACCEPTED;
use meaning::sizes::{
    BILLED_AT, CALL_BYTES, CALL_HEAD, DIGIT_ROOM, DISTRICT_AT, DISTRICTS, LEDGER_NUMBERS,
    PRICES_BYTES, SECONDS_AT,
};
use meaning::{Refusal, Taken, Totals};
use number::{ANSWER_BYTES, Outcome};
use plan::SoundPlan;
use prices::PriceList;

// The longest call, and the most that one is billed, in thousandths of a cent.
const SECONDS_LIMIT: usize = 86400;

const BILLED_LIMIT: usize = 1440000000;

// The units of a thousandth of a cent.
const UNITS: usize = 60;

// RANGE

// Whether the fields before a call record's number are in range.
pub fn head_in_range(body: &[u8]) -> bool
    requires { length body.now ≡ CALL-BYTES }
    ensures { result ≡ head_in_range body.now }
{
    if DISTRICTS <= buffer::word(body, DISTRICT_AT) {
        return false;
    }
    if SECONDS_LIMIT < buffer::quad(body, SECONDS_AT) {
        return false;
    }
    buffer::quad(body, BILLED_AT) <= BILLED_LIMIT
}

// Whether a call record is in range.
fn call_in_range(body: &[u8]) -> bool
    requires { length body.now ≡ CALL-BYTES }
    ensures { result ≡ call_in_range body.now }
{
    if !head_in_range(body) {
        return false;
    }
    ranges::number_in_range(&body[CALL_HEAD..CALL_BYTES])
}

// WHAT A CALL IS DUE

// What a call of so many seconds to some digits is due, in units; none where no row of the price list fits.
fn due_on(prices: PriceList, seconds: usize, digits: &[u8]) -> Option<usize>
    requires { seconds ≤ SECONDS-LIMIT }
    ensures { GivesDue (times_price seconds (price_for (rows_in prices.entry.memory.now) digits.now)) result }
{
    let price = prices.price_for(digits)?;
    Some(seconds * price)
}

// What a call is due by its outcome: nothing for a response, else by its outgoing or its incoming digits.
fn due_of(prices: PriceList, body: &[u8], outcome: u8, outgoing: &[u8]) -> Option<usize>
    requires { (length body.now ≡ CALL-BYTES) × (call_in_range body.now ≡ true) }
    ensures { GivesDue (due_on (rows_in prices.entry.memory.now) (call_record_of body.now).seconds (priced_by outcome (number_in body.now).digits outgoing.now)) result }
{
    if outcome == u8::from(Outcome::Responded) {
        return Some(0);
    }
    let seconds = buffer::quad(body, SECONDS_AT);
    if outcome == u8::from(Outcome::Formatted) {
        return due_on(prices, seconds, outgoing);
    }
    due_on(
        prices,
        seconds,
        number::digits_in(&body[CALL_HEAD..CALL_BYTES]),
    )
}

// THE ENTRY

// The record on the ledger with what it is due, or LEDGER FULL: the whole's totals behind it.
fn enter(
    districts: &mut [i64; LEDGER_NUMBERS],
    whole: Totals,
    body: &[u8],
    due: usize,
) -> Result<Totals, Refusal>
    requires { (ledger_in_range (ledger_of districts.old whole) ≡ true) × (length body.now ≡ CALL-BYTES) × (call_in_range body.now ≡ true) × (due ≤ UNIT-LIMIT) }
    ensures { Charges (some due) (call_record_of body.now) (ledger_of districts.old whole) (ledger_of districts.new (whole_behind whole result)) (refusal_of_charge result) }
{
    if ledger::is_full(whole) {
        return Err(Refusal::LedgerFull);
    }
    let district = buffer::word(body, DISTRICT_AT);
    let billed = buffer::quad(body, BILLED_AT) * UNITS;
    Ok(ledger::enter(districts, whole, district, due, billed))
}

// Charges a number that was answered, where it is a call record's: what it is due goes on the ledger, or it draws NO PRICE or LEDGER FULL, and the whole's totals stay.
pub fn charge(
    call: bool,
    prices: &[u8],
    districts: &mut [i64; LEDGER_NUMBERS],
    whole: Totals,
    body: &[u8],
    outcome: u8,
    outgoing: &[u8],
) -> Result<Totals, Refusal>
    requires { call ≡ true → Priceable prices.now (ledger_of districts.old whole) body.now }
    ensures { ChargesIf call (due_on (rows_in prices.now) (call_record_of body.now).seconds (priced_by outcome (number_in body.now).digits outgoing.now)) (call_record_of body.now) (ledger_of districts.old whole) (ledger_of districts.new (whole_behind whole result)) (refusal_of_charge result) }
{
    if !call {
        return Ok(whole);
    }
    let list = PriceList { memory: prices };
    match due_of(list, body, outcome, outgoing) {
        None => Err(Refusal::NoPrice),
        Some(due) => enter(districts, whole, body, due),
    }
}

// A refusal: the whole's totals stay.
fn refused(refusal: Refusal, whole: Totals) -> Taken
    ensures { result ≡ refused_as (number_of_refusal refusal) whole }
{
    Taken {
        answer: number::refuse(refusal),
        whole,
    }
}

// A call record over a ledger that is in range. The outgoing digits stand at the front of a buffer of which nothing else is kept.
fn charge_held(
    plan: SoundPlan,
    prices: PriceList,
    districts: &mut [i64; LEDGER_NUMBERS],
    whole: Totals,
    body: &[u8],
    digits: &mut [u8],
) -> Taken
    requires { Chargeable (ledger_of districts.old whole) body.now × (ANSWER-BYTES ≤ length digits.old) }
    ensures { HoldsTaken plan.entry.memory.now prices.entry.memory.now (ledger_of districts.old whole) body.now (ledger_of districts.new result.whole) digits.new result.answer }
{
    let answer = number::answer_held(plan, &body[CALL_HEAD..CALL_BYTES], digits);
    if answer.refusal != ACCEPTED {
        return Taken { answer, whole };
    }
    let outgoing = &digits[..answer.digits];
    match charge(
        true,
        prices.memory,
        districts,
        whole,
        body,
        answer.outcome,
        outgoing,
    ) {
        Ok(left) => Taken {
            answer,
            whole: left,
        },
        Err(refusal) => refused(refusal, whole),
    }
}

// THE CALL

// The same with the outgoing digits at the front of a lent buffer; the bytes behind them stay.
pub fn take_known(
    plan: SoundPlan,
    prices: PriceList,
    districts: &mut [i64; LEDGER_NUMBERS],
    whole: Totals,
    body: &[u8],
    out: &mut [u8],
) -> Taken
    requires { Chargeable (ledger_of districts.old whole) body.now × (32 ≤ length out.old) }
    ensures { TakesKnown plan.entry.memory.now prices.entry.memory.now (ledger_of districts.old whole) body.now out.old (ledger_of districts.new result.whole) out.new result.answer }
{
    let mut digits = [0u8; ANSWER_BYTES];
    let t = charge_held(plan, prices, districts, whole, body, &mut digits);
    let n = t.answer.digits;
    buffer::copy(out, &digits[0..n]);
    t
}

// Takes a call record, for any plan bytes, any price list, any ledger, any body and any buffer.
pub fn take_call(
    plan: &[u8],
    prices: &[u8; PRICES_BYTES],
    districts: &mut [i64; LEDGER_NUMBERS],
    whole: Totals,
    body: &[u8],
    out: &mut [u8],
) -> Taken
    ensures { Takes plan.now prices.now (ledger_of districts.old whole) body.now out.old (ledger_of districts.new result.whole) out.new result.answer }
{
    if body.len() < CALL_BYTES {
        return refused(Refusal::Cut, whole);
    }
    let Ok(plan) = examiner::examine(plan) else {
        return refused(Refusal::Plan, whole);
    };
    if out.len() < DIGIT_ROOM {
        return refused(Refusal::Room, whole);
    }
    let call = &body[..CALL_BYTES];
    if !call_in_range(call) || !ledger::in_range(districts, whole) {
        return refused(Refusal::Range, whole);
    }
    let Ok(prices) = prices::examine(prices) else {
        return refused(Refusal::Range, whole);
    };
    take_known(plan, prices, districts, whole, call, out)
}
