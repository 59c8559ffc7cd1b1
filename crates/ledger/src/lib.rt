// The ledger: its range, one record more, and the loss of a district and of the whole.
#![tactic(auto)]

ghost use Rattle.std.specs.Prelude.{◌≡◌, true, ◌*◌, ◌-◌, ◌≤◌, ◌<◌, pos, length, replicate};
ghost use Rattle.std.specs.Int.Signed.{le_z};
ghost use Rattle.meaning.specs.Sizes.{DISTRICTS as DISTRICT-COUNT};
ghost use Rattle.meaning.specs.Ledger.{LEDGER-LIMIT, ledger_of, totals_at, sum_in_range, totals_in_range, districts_in_range, ledger_in_range, plus, with_totals, entered, cents, loss_in, has_records, loss_read, total_read};
ghost use Rattle.meaning.specs.Answers.{loss_given};
ghost use Rattle.ledger.specs.Entries.{entry_for, Enterable, Addable};
ghost use Rattle.ledger.specs.Losses.{Sized, SizedLoss, next_from};

use meaning::sizes::{DISTRICTS, LEDGER_NUMBERS};
use meaning::{Loss, Refusal, Totals};

// The records that a ledger takes.
pub const LEDGER_LIMIT: i64 = 10000000;

// The most units that a record is due or billed.
pub const UNIT_LIMIT: i64 = 86400000000;

// The units of a cent.
pub const CENT: i64 = 60000;

// The units from which on a loss is a cent more.
pub const HALF_CENT: i64 = 30000;

// Whether a due or billed sum is from 0 to the count beside it times the most units of a record.
#[tactic(auto, unfolding(meaning::specs::Ledger::sum_in_range), using(crate::proofs::Ranges::no_count, crate::proofs::Ranges::times_fits))]
fn sum_in_range(count: i64, sum: i64) -> bool
    requires { le_z count (pos LEDGER-LIMIT) ≡ true }
    ensures { result ≡ sum_in_range count sum }
{
    0 <= count && 0 <= sum && sum <= count * UNIT_LIMIT
}

// The range of totals whose count may be no more than `most`.
#[tactic(auto, unfolding(meaning::specs::Ledger::totals_in_range))]
fn totals_in_range(most: i64, t: Totals) -> bool
    requires { le_z most (pos LEDGER-LIMIT) ≡ true }
    ensures { result ≡ totals_in_range most t }
{
    t.count <= most && sum_in_range(t.count, t.due) && sum_in_range(t.count, t.billed)
}

// Where a district's count stands: its due and billed are behind it.
fn place(district: usize) -> usize
    requires { district < DISTRICT-COUNT }
    ensures { result ≡ 3 * district }
{
    3 * district
}

// What a ledger holds of a district.
pub fn totals_at(districts: &[i64; LEDGER_NUMBERS], district: usize) -> Totals
    requires { district < DISTRICT-COUNT }
    ensures { result ≡ totals_at districts.now district }
{
    let i = place(district);
    Totals {
        count: districts[i],
        due: districts[i + 1],
        billed: districts[i + 2],
    }
}

// The range of every district of a ledger of `most` records.
fn districts_in_range(districts: &[i64; LEDGER_NUMBERS], most: i64) -> bool
    requires { le_z most (pos LEDGER-LIMIT) ≡ true }
    ensures { result ≡ districts_in_range most districts.now 0 DISTRICT-COUNT }
{
    (0..DISTRICTS).all(|d| totals_in_range(most, totals_at(districts, d)))
}

// The range of a lent ledger.
#[tactic(auto, using(crate::proofs::Ranges::whole_out, crate::proofs::Ranges::count_limit))]
pub fn in_range(districts: &[i64; LEDGER_NUMBERS], whole: Totals) -> bool
    ensures { result ≡ ledger_in_range (ledger_of districts.now whole) }
{
    totals_in_range(LEDGER_LIMIT, whole) && districts_in_range(districts, whole.count)
}

// Whether a ledger takes no record more.
pub fn is_full(whole: Totals) -> bool
    ensures { result ≡ le_z (pos LEDGER-LIMIT) whole.count }
{
    LEDGER_LIMIT <= whole.count
}

// One record more.
#[tactic(auto, unfolding(meaning::specs::Ledger::plus))]
fn plus(t: Totals, due: usize, billed: usize) -> Totals
    requires { Addable t due billed }
    ensures { result ≡ plus (entry_for 0 due billed) t }
{
    Totals {
        count: t.count + 1,
        due: t.due + due as i64,
        billed: t.billed + billed as i64,
    }
}

// A district's totals put in their places.
#[tactic(auto, unfolding(meaning::specs::Ledger::with_totals))]
fn put_totals(districts: &mut [i64; LEDGER_NUMBERS], district: usize, t: Totals)
    requires { district < DISTRICT-COUNT }
    ensures { districts.new ≡ with_totals district t districts.old }
{
    let i = place(district);
    districts[i] = t.count;
    districts[i + 1] = t.due;
    districts[i + 2] = t.billed;
}

// One record on its district and on the whole.
pub fn enter(
    districts: &mut [i64; LEDGER_NUMBERS],
    whole: Totals,
    district: usize,
    due: usize,
    billed: usize,
) -> Totals
    requires { Enterable (ledger_of districts.old whole) (entry_for district due billed) }
    ensures { ledger_of districts.new result ≡ entered (entry_for district due billed) (ledger_of districts.old whole) }
{
    let t = totals_at(districts, district);
    put_totals(districts, district, plus(t, due, billed));
    plus(whole, due, billed)
}

// Whole cents of a loss in units, halves away from zero.
#[tactic(auto, using(crate::proofs::Losses::cents_neg, crate::proofs::Losses::cents_pos))]
fn cents(units: i64) -> i64
    requires { SizedLoss units }
    ensures { result ≡ cents units }
{
    if units < 0 {
        (units - HALF_CENT) / CENT
    } else {
        (units + HALF_CENT) / CENT
    }
}

// The loss: due less billed, below zero where we were overcharged, and rounded once.
#[tactic(auto, unfolding(meaning::specs::Ledger::loss_in))]
pub fn loss_of(t: Totals) -> Loss
    requires { Sized t }
    ensures { loss_in t ≡ (result.units, result.cents) }
{
    let units = t.due - t.billed;
    Loss {
        units,
        cents: cents(units),
    }
}

// Whether any record was counted.
fn has_records(t: Totals) -> bool
    ensures { result ≡ has_records t }
{
    0 < t.count
}

// The loss of a district of a lent ledger.
#[tactic(auto, unfolding(meaning::specs::Ledger::loss_read))]
pub fn district_loss(
    districts: &[i64; LEDGER_NUMBERS],
    whole: Totals,
    district: u16,
) -> Result<Option<Loss>, Refusal>
    ensures { loss_given result ≡ loss_read (ledger_of districts.now whole) district }
{
    let d = usize::from(district);
    if DISTRICTS <= d || !in_range(districts, whole) {
        return Err(Refusal::Range);
    }
    let t = totals_at(districts, d);
    if !has_records(t) {
        return Ok(None);
    }
    Ok(Some(loss_of(t)))
}

// The loss of a whole lent ledger.
#[tactic(auto, unfolding(meaning::specs::Ledger::total_read), using(crate::proofs::Losses::whole_sized))]
pub fn total_loss(districts: &[i64; LEDGER_NUMBERS], whole: Totals) -> Result<Option<Loss>, Refusal>
    ensures { loss_given result ≡ total_read (ledger_of districts.now whole) }
{
    if !in_range(districts, whole) {
        return Err(Refusal::Range);
    }
    Ok(Some(loss_of(whole)))
}

// The first district from `from` on that has records; behind the last where none has.
pub fn next_district(districts: &[i64; LEDGER_NUMBERS], from: usize) -> usize
    requires { from ≤ DISTRICT-COUNT }
    ensures { result ≡ next_from districts.now from (DISTRICT-COUNT - from) }
{
    (from..DISTRICTS)
        .find(|d| has_records(totals_at(districts, *d)))
        .unwrap_or(DISTRICTS)
}

// All numbers 0: an empty ledger.
pub fn clear(numbers: &mut [i64])
    ensures { numbers.new ≡ replicate (length numbers.old) (pos 0) }
{
    numbers.fill(0);
}
