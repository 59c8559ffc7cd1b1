// The answer and the choice over a plan that is known to be sound, and a call record over what is known to be in range, exported for the benchmark alone: a caller
// owes what each requires.
#![tactic(auto)]

ghost use Rattle.std.specs.Prelude.{◌≡◌, true, ◌≤◌, length};
ghost use Rattle.meaning.specs.Settings.{number_of};
ghost use Rattle.meaning.specs.Rules.{chosen_place};
ghost use Rattle.meaning.specs.Answer.{answer_of};
ghost use Rattle.plan.specs.Layout.{plan_of};
ghost use Rattle.plan.specs.State.{sound_of};
ghost use Rattle.number.specs.Answering.{Ready};
ghost use Rattle.number.specs.Promises.{GivesAnswer};
ghost use Rattle.meaning.specs.Ledger.{ledger_of};
ghost use Rattle.prices.specs.Layout.{prices_in_range};
ghost use Rattle.charging.specs.Promises.{Chargeable};
ghost use Rattle.bench.specs.PlaceNumbers.{place_number};
ghost use Rattle.bench.specs.Charged.{ChargedAs};

use meaning::sizes::LEDGER_NUMBERS;
use meaning::{Answered, Totals};
use plan::SoundPlan;
use prices::PriceList;

#[unsafe(no_mangle)]
pub extern "C" fn npp_answer_known(plan: &[u8], body: &[u8], out: &mut [u8]) -> Answered
    requires { (sound_of plan.now ≡ true) × Ready body.now out.old }
    ensures { GivesAnswer (answer_of (plan_of plan.now) (number_of body.now)) out.old out.new result }
{
    number::answer_known(SoundPlan { memory: plan }, body, out)
}

// What stands for no place.
const NO_PLACE: usize = 65535;

// The place of the rule chosen for a number.
#[unsafe(no_mangle)]
pub extern "C" fn npp_chosen_known(plan: &[u8], class: u8, digits: &[u8]) -> usize
    requires { sound_of plan.now ≡ true }
    ensures { result ≡ place_number (chosen_place class digits.now (plan_of plan.now).rules) }
{
    match choice::choose(SoundPlan { memory: plan }, class, digits) {
        Some(rule) => usize::from(rule.place.0),
        None => NO_PLACE,
    }
}

// The outcome of a call record, and the whole's totals behind it.
#[repr(C)]
#[derive(Clone, Copy)]
pub struct Charged {
    pub outcome: u8,
    pub whole: Totals,
}

// A call record charged and entered.
#[unsafe(no_mangle)]
pub extern "C" fn npp_charge_known(
    plan: &[u8],
    prices: &[u8],
    districts: &mut [i64; LEDGER_NUMBERS],
    whole: Totals,
    body: &[u8],
    out: &mut [u8],
) -> Charged
    requires { (sound_of plan.now ≡ true) × (prices_in_range prices.now ≡ true) × Chargeable (ledger_of districts.old whole) body.now × (32 ≤ length out.old) }
    ensures { ChargedAs plan.now prices.now (ledger_of districts.old whole) body.now out.old (ledger_of districts.new result.whole) out.new result.outcome }
{
    let plan = SoundPlan { memory: plan };
    let prices = PriceList { memory: prices };
    let t = charging::take_known(plan, prices, districts, whole, body, out);
    Charged {
        outcome: t.answer.outcome,
        whole: t.whole,
    }
}
