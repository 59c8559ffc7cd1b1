// The calls about rules over a plan that is known to be sound, with a body of just its length: the refusal of each, by its checks in document 01's order,
// and what an accepted one makes of the plan.
#![tactic(auto)]

ghost use Rattle.std.specs.Prelude.{◌≡◌, true, false, ◌&&◌, ◌||◌, not, ◌++◌, length, eqb};
ghost use Rattle.meaning.specs.Sizes.{FILTER-BYTES, RULE-BODY};
ghost use Rattle.meaning.specs.Basics.{is_some};
ghost use Rattle.meaning.specs.Refusals.{first_of};
ghost use Rattle.meaning.specs.Filters.{filter_of, filter_in_range};
ghost use Rattle.meaning.specs.Rules.{insert, rename, without};
ghost use Rattle.meaning.specs.Plan.{rooms_in, held, with_rules, fits_held};
ghost use Rattle.meaning.specs.Reads.{over_room};
ghost use Rattle.meaning.specs.Calls.{code_given, set_given, rule_given, holds_filter, add_rule_lines, change_rule_lines, remove_rule_lines};
ghost use Rattle.meaning.specs.Answers.{number_of_provisioned};
ghost use Rattle.filter.specs.Place.{filter_place, place_given};
ghost use Rattle.plan.specs.Layout.{image, plan_of};
ghost use Rattle.plan.specs.State.{sound_of, rest_of};
ghost use Rattle.rule_changes.specs.Places.{place_number, GivesFilter};

use changes::code_given;
use meaning::sizes::SET_AT;
use meaning::{Refusal, RulePlace};
use plan::SoundPlan;

// THE REFUSALS

// Whether the rule that a body gives is out of range: its set number at or over the room, or its filter.
fn out_of_range(plan: SoundPlan, body: &[u8]) -> bool
    requires { length body.now ≡ RULE-BODY }
    ensures { result ≡ (over_room (plan_of plan.entry.memory.now) (set_given body.now) || not (filter_in_range (code_given body.now))) }
{
    if changes::is_over_room(plan, body, SET_AT) {
        return true;
    }
    !filter::filter_in_range(body)
}

// Where the rules have the filter that a body gives, or where adding would put it.
fn find_given(plan: SoundPlan, body: &[u8]) -> Result<RulePlace, RulePlace>
    requires { GivesFilter body.now }
    ensures { place_given result ≡ filter_place (filter_of (code_given body.now)) (plan_of plan.entry.memory.now).rules }
{
    filter::find(plan.rules(), plan.rule_count(), code_given(body))
}

// Whether some rule has the filter that a body gives.
fn holds_filter(plan: SoundPlan, body: &[u8]) -> bool
    requires { GivesFilter body.now }
    ensures { result ≡ holds_filter (plan_of plan.entry.memory.now) (code_given body.now) }
{
    find_given(plan, body).is_ok()
}

// Whether the rule's filter and the set that it names fit; a set that is not held fits none.
fn fits_held(plan: SoundPlan, body: &[u8]) -> bool
    requires { GivesFilter body.now × (length body.now ≡ RULE-BODY) }
    ensures { result ≡ fits_held (filter_of (code_given body.now)) (held (plan_of plan.entry.memory.now) (set_given body.now)) }
{
    let set = plan::set_number(body, SET_AT);
    if !plan.is_held(set) {
        return false;
    }
    changes::fits(code_given(body), plan.content(set))
}

// Whether the rules held equal the room.
fn is_full(plan: SoundPlan) -> bool
    ensures { result ≡ eqb (length (plan_of plan.entry.memory.now).rules) (rooms_in (plan_of plan.entry.memory.now)).rules }
{
    plan.rule_count() == plan.rule_room()
}

// The refusal of a rule that is added.
pub fn add_rule_refusal(plan: SoundPlan, body: &[u8]) -> Result<(), Refusal>
    requires { length body.now ≡ RULE-BODY }
    ensures { number_of_provisioned result ≡ first_of (add_rule_lines (plan_of plan.entry.memory.now) body.now) }
{
    if out_of_range(plan, body) {
        return Err(Refusal::Range);
    }
    if holds_filter(plan, body) {
        return Err(Refusal::Taken);
    }
    if !changes::is_held(plan, body, SET_AT) {
        return Err(Refusal::Absent);
    }
    if !fits_held(plan, body) {
        return Err(Refusal::Misfit);
    }
    if is_full(plan) {
        return Err(Refusal::Full);
    }
    Ok(())
}

// Whether the filter to change and the set to name are both there.
fn both_there(plan: SoundPlan, body: &[u8]) -> bool
    requires { GivesFilter body.now × (length body.now ≡ RULE-BODY) }
    ensures { result ≡ (holds_filter (plan_of plan.entry.memory.now) (code_given body.now) && is_some (held (plan_of plan.entry.memory.now) (set_given body.now))) }
{
    if !holds_filter(plan, body) {
        return false;
    }
    changes::is_held(plan, body, SET_AT)
}

// The refusal of a rule whose set is changed.
pub fn change_rule_refusal(plan: SoundPlan, body: &[u8]) -> Result<(), Refusal>
    requires { length body.now ≡ RULE-BODY }
    ensures { number_of_provisioned result ≡ first_of (change_rule_lines (plan_of plan.entry.memory.now) body.now) }
{
    if out_of_range(plan, body) {
        return Err(Refusal::Range);
    }
    if !both_there(plan, body) {
        return Err(Refusal::Absent);
    }
    if !fits_held(plan, body) {
        return Err(Refusal::Misfit);
    }
    Ok(())
}

// The refusal of a rule that is removed.
pub fn remove_rule_refusal(plan: SoundPlan, body: &[u8]) -> Result<(), Refusal>
    requires { length body.now ≡ FILTER-BYTES }
    ensures { number_of_provisioned result ≡ first_of (remove_rule_lines (plan_of plan.entry.memory.now) body.now) }
{
    if !filter::filter_in_range(body) {
        return Err(Refusal::Range);
    }
    if !holds_filter(plan, body) {
        return Err(Refusal::Absent);
    }
    Ok(())
}

// WHAT AN ACCEPTED CALL MAKES

// The place of the rule whose filter a body gives, or the place where adding would put it.
fn place_of(plan: SoundPlan, body: &[u8]) -> RulePlace
    requires { GivesFilter body.now }
    ensures { result.0 ≡ place_number (filter_place (filter_of (code_given body.now)) (plan_of plan.entry.memory.now).rules) }
{
    match find_given(plan, body) {
        Ok(k) => k,
        Err(k) => k,
    }
}

// The rule that a body gives, put in at its place.
pub fn insert_given(plan: &mut [u8], body: &[u8])
    requires { (sound_of plan.old ≡ true) × GivesFilter body.now × (length body.now ≡ RULE-BODY) × (holds_filter (plan_of plan.old) (code_given body.now) ≡ false) × (eqb (length (plan_of plan.old).rules) (rooms_in (plan_of plan.old)).rules ≡ false) }
    ensures { plan.new ≡ image (with_rules (insert (rule_given body.now) (plan_of plan.old).rules) (plan_of plan.old)) ++ rest_of plan.old }
{
    let place = place_of(SoundPlan { memory: plan }, body);
    plan::insert_rule(
        plan,
        place,
        code_given(body),
        plan::set_number(body, SET_AT),
    );
}

// The rule whose filter a body gives names the set that the body gives.
pub fn rename_given(plan: &mut [u8], body: &[u8])
    requires { (sound_of plan.old ≡ true) × GivesFilter body.now × (length body.now ≡ RULE-BODY) × (holds_filter (plan_of plan.old) (code_given body.now) ≡ true) }
    ensures { plan.new ≡ image (with_rules (rename (filter_of (code_given body.now)) (set_given body.now) (plan_of plan.old).rules) (plan_of plan.old)) ++ rest_of plan.old }
{
    let place = place_of(SoundPlan { memory: plan }, body);
    plan::rename_rule(plan, place, plan::set_number(body, SET_AT));
}

// The rule whose filter a body gives, taken out.
pub fn remove_given(plan: &mut [u8], body: &[u8])
    requires { (sound_of plan.old ≡ true) × GivesFilter body.now × (holds_filter (plan_of plan.old) (code_given body.now) ≡ true) }
    ensures { plan.new ≡ image (with_rules (without (filter_of (code_given body.now)) (plan_of plan.old).rules) (plan_of plan.old)) ++ rest_of plan.old }
{
    let place = place_of(SoundPlan { memory: plan }, body);
    plan::remove_rule(plan, place);
}
