// The lines of numbers and of C-11's records: a number, alone or in a call record, a row of the price list, the losses.
#![tactic(auto)]

ghost use Rattle.std.specs.Prelude.{◌≡◌, true, ◌≤◌, ◌<◌, length, None};
ghost use Rattle.meaning.specs.Sizes.{PRICE-BODY, DISTRICTS as DISTRICT-COUNT};
ghost use Rattle.meaning.specs.Ledger.{ledger_of, totals_at, ledger_in_range};
ghost use Rattle.meaning.specs.Records.{no_line, loss_line, total_line};
ghost use Rattle.plan.specs.State.{state_of};
ghost use Rattle.number.specs.Answering.{Known};
ghost use Rattle.prices.specs.Layout.{rows_in, prices_in_range};
ghost use Rattle.text.specs.Writes.{LONGEST, Writes};
ghost use Rattle.billing.specs.Lines.{AnsweredPromise, OfPricedRecord, PricePromise, LossPromise};

use meaning::Totals;
use meaning::refusals::ACCEPTED;
use meaning::sizes::{DISTRICTS, LEDGER_NUMBERS};
use number::ANSWER_BYTES;
use plan::SoundPlan;

// A line of a number, alone or in a call record: how many bytes it has, and the whole's totals behind it.
#[derive(Clone, Copy)]
pub struct Entered {
    pub written: usize,
    pub whole: Totals,
}

// A line of the losses: how many bytes it has, and where more are to come how many districts are counted behind it.
#[derive(Clone, Copy)]
pub struct Reported {
    pub written: usize,
    pub next: Option<u16>,
}

// A NUMBER, AND A CALL RECORD

// The line of a refusal: the whole's totals stay.
pub fn refused_line(number: u8, whole: Totals, output: &mut [u8]) -> Entered
    requires { LONGEST ≤ length output.old }
    ensures { Writes (no_line number) output.old output.new result.written × (result.whole ≡ whole) }
{
    let written = text::no_line(number, output);
    Entered { written, whole }
}

// The line of a number in range. A call record is charged before it has its line.
pub fn answered_line(
    plan: SoundPlan,
    prices: &[u8],
    districts: &mut [i64; LEDGER_NUMBERS],
    whole: Totals,
    call: bool,
    body: &[u8],
    number: &[u8],
    output: &mut [u8],
) -> Entered
    requires { Known number.now × OfPricedRecord call prices.now (ledger_of districts.old whole) body.now number.now × (LONGEST ≤ length output.old) }
    ensures { AnsweredPromise call (state_of plan.entry.memory.now) (rows_in prices.now) (ledger_of districts.old whole) body.now output.old (ledger_of districts.new result.whole) output.new result.written }
{
    let mut digits = [0u8; ANSWER_BYTES];
    let answer = number::answer_held(plan, number, &mut digits);
    if answer.refusal != ACCEPTED {
        return refused_line(answer.refusal, whole, output);
    }
    let outgoing = &digits[..answer.digits];
    match charging::charge(
        call,
        prices,
        districts,
        whole,
        body,
        answer.outcome,
        outgoing,
    ) {
        Err(refusal) => refused_line(u8::from(refusal), whole, output),
        Ok(left) => {
            let written = text::number_line(answer, outgoing, output);
            Entered {
                written,
                whole: left,
            }
        }
    }
}

// A ROW

// The line of a row, over a price list that is known to be in range.
pub fn price_record(prices: &mut [u8], body: &[u8], output: &mut [u8]) -> usize
    requires { (prices_in_range prices.old ≡ true) × (length body.now ≡ PRICE-BODY) × (LONGEST ≤ length output.old) }
    ensures { PricePromise prices.old body.now output.old prices.new output.new result }
{
    let answer = prices::add_known(prices, body);
    text::accepted_line(answer, output)
}

// THE LOSSES

// The line of a district.
fn district_line(
    districts: &[i64; LEDGER_NUMBERS],
    whole: Totals,
    district: usize,
    output: &mut [u8],
) -> usize
    requires { (ledger_in_range (ledger_of districts.now whole) ≡ true) × (district < DISTRICT-COUNT) × (LONGEST ≤ length output.old) }
    ensures { Writes (loss_line district (totals_at districts.now district)) output.old output.new result }
{
    let loss = ledger::loss_of(ledger::totals_at(districts, district));
    text::loss_line(district, loss.cents, output)
}

// The last line: that of the whole.
fn last_line(districts: &[i64; LEDGER_NUMBERS], whole: Totals, output: &mut [u8]) -> Reported
    requires { (ledger_in_range (ledger_of districts.now whole) ≡ true) × (LONGEST ≤ length output.old) }
    ensures { Writes (total_line whole) output.old output.new result.written × (result.next ≡ None) }
{
    let loss = ledger::loss_of(whole);
    let written = text::total_line(loss.cents, output);
    Reported {
        written,
        next: None,
    }
}

// The next line of the losses: of the first district that has records from the one that is counted on, or of the whole.
pub fn loss_record(
    districts: &[i64; LEDGER_NUMBERS],
    whole: Totals,
    lines: u16,
    output: &mut [u8],
) -> Reported
    requires { (ledger_in_range (ledger_of districts.now whole) ≡ true) × (LONGEST ≤ length output.old) }
    ensures { LossPromise (ledger_of districts.now whole) lines output.old output.new result }
{
    let from = usize::from(lines);
    if DISTRICTS <= from {
        return last_line(districts, whole, output);
    }
    let d = ledger::next_district(districts, from);
    if DISTRICTS <= d {
        return last_line(districts, whole, output);
    }
    let written = district_line(districts, whole, d, output);
    Reported {
        written,
        next: Some((d + 1) as u16),
    }
}
