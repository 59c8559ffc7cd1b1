// Opening, and the calls about sets over a plan that is known to be sound, with a body of just its length: the refusal of each, by its checks in
// document 01's order, and what an accepted one makes of the plan.
#![tactic(auto)]

ghost use Rattle.std.specs.Prelude.{◌≡◌, true, false, ◌&&◌, ◌||◌, not, ◌++◌, ◌+◌, ◌*◌, ◌<◌, length};
ghost use Rattle.std.proofs.Math.Option.{none, some};
ghost use Rattle.meaning.specs.Sizes.{OPENING-BYTES, SET-NUMBER-BYTES, CONTENT-BYTES, SET-BODY};
ghost use Rattle.meaning.specs.Basics.{all, any};
ghost use Rattle.meaning.specs.Refusals.{first_of};
ghost use Rattle.meaning.specs.Settings.{rooms_in_range, settings_in_range};
ghost use Rattle.meaning.specs.Rules.{Rule, filter_in, names};
ghost use Rattle.meaning.specs.Actions.{actions_of, content_in_range};
ghost use Rattle.meaning.specs.Groups.{groups_hold, fit};
ghost use Rattle.meaning.specs.Plan.{with_slot};
ghost use Rattle.meaning.specs.Reads.{over_room};
ghost use Rattle.meaning.specs.Calls.{open_plan, opened_rooms, opened_settings, set_number, content_given, lacks_bytes, opening_lines, add_set_lines, replace_set_lines, remove_set_lines};
ghost use Rattle.meaning.specs.Answers.{number_of_provisioned};
ghost use Rattle.filter.specs.Slots.{rules_of, RuleArea};
ghost use Rattle.plan.specs.Layout.{image, plan_of};
ghost use Rattle.plan.specs.State.{sound_of, rest_of};
ghost use Rattle.changes.specs.Promise.{Provides, calls};

use changes::content_given;
use meaning::sizes::{OPENING_BYTES, ROOMS_BYTES, RULE_WIDTH, SET_WIDTH, SETS_AT};
use meaning::{Refusal, RulePlace, SetNumber};
use plan::SoundPlan;

// OPENING

// Whether the rooms and the settings of an opening are in range.
fn opening_in_range(body: &[u8]) -> bool
    requires { length body.now ≡ OPENING-BYTES }
    ensures { result ≡ (rooms_in_range (opened_rooms body.now) && settings_in_range (opened_settings body.now)) }
{
    if !ranges::rooms_in_range(&body[0..ROOMS_BYTES]) {
        return false;
    }
    ranges::settings_in_range(&body[ROOMS_BYTES..OPENING_BYTES])
}

// Whether `size` bytes are too few for the rooms of an opening.
fn lacks_room(size: usize, body: &[u8]) -> bool
    requires { length body.now ≡ OPENING-BYTES }
    ensures { result ≡ lacks_bytes size (opened_rooms body.now) }
{
    size < SETS_AT + SET_WIDTH * buffer::word(body, 0) + RULE_WIDTH * buffer::word(body, 2)
}

// The refusal of an opening over a memory of `size` bytes.
pub fn opening_refusal(size: usize, body: &[u8]) -> Result<(), Refusal>
    requires { length body.now ≡ OPENING-BYTES }
    ensures { number_of_provisioned result ≡ first_of (opening_lines (lacks_bytes size) body.now) }
{
    if !opening_in_range(body) {
        return Err(Refusal::Range);
    }
    if lacks_room(size, body) {
        return Err(Refusal::Room);
    }
    Ok(())
}

// An opening over any memory.
pub fn open_known(plan: &mut [u8], body: &[u8]) -> Result<(), Refusal>
    requires { length body.now ≡ OPENING-BYTES }
    ensures { Provides (calls open_plan body.now) plan.old plan.new (number_of_provisioned result) }
{
    opening_refusal(plan.len(), body)?;
    plan::start(
        plan,
        &body[0..ROOMS_BYTES],
        &body[ROOMS_BYTES..OPENING_BYTES],
    );
    Ok(())
}

// THE REFUSALS

// Whether the set that a body gives is out of range: its number at or over the room, or its content.
fn out_of_range(plan: SoundPlan, body: &[u8]) -> bool
    requires { length body.now ≡ SET-BODY }
    ensures { result ≡ (over_room (plan_of plan.entry.memory.now) (set_number body.now) || not (content_in_range (content_given body.now))) }
{
    if changes::is_over_room(plan, body, 0) {
        return true;
    }
    !actions::content_in_range(content_given(body))
}

// Whether the content that a body gives keeps the group rules.
fn keeps_groups(body: &[u8]) -> bool
    requires { length body.now ≡ SET-BODY }
    ensures { result ≡ groups_hold (actions_of (content_given body.now)) }
{
    groups::groups_hold(content_given(body))
}

// The refusal of a set that is added.
pub fn add_set_refusal(plan: SoundPlan, body: &[u8]) -> Result<(), Refusal>
    requires { length body.now ≡ SET-BODY }
    ensures { number_of_provisioned result ≡ first_of (add_set_lines (plan_of plan.entry.memory.now) body.now) }
{
    if out_of_range(plan, body) {
        return Err(Refusal::Range);
    }
    if !keeps_groups(body) {
        return Err(Refusal::Groups);
    }
    if changes::is_held(plan, body, 0) {
        return Err(Refusal::Taken);
    }
    Ok(())
}

// Whether a content fits every one of the first `count` rules of an area that names a set.
fn all_fit(rules: &[u8], count: usize, set: SetNumber, content: &[u8]) -> bool
    requires content_len { length content.now ≡ CONTENT-BYTES }
    requires rule_area { RuleArea count rules.now }
    ensures { result ≡ all (λ (x : Rule). not (names set.0 x) || fit (filter_in x) (actions_of content.now)) (rules_of count rules.now) }
{
    for i in 0..count {
        let named = filter::set_at(rules, RulePlace(i as u16));
        let a = RULE_WIDTH * i;
        let e = a + RULE_WIDTH;
        if named.0 == set.0 && !changes::fits(&rules[a..e], content) {
            return false;
        }
    }
    true
}

// Whether the content that a body gives fits every rule that names its set.
fn fits_rules(plan: SoundPlan, body: &[u8]) -> bool
    requires { length body.now ≡ SET-BODY }
    ensures { result ≡ all (λ (x : Rule). not (names (set_number body.now) x) || fit (filter_in x) (actions_of (content_given body.now))) (plan_of plan.entry.memory.now).rules }
{
    all_fit(
        plan.rules(),
        plan.rule_count(),
        plan::set_number(body, 0),
        content_given(body),
    )
}

// The refusal of a set that is replaced.
pub fn replace_set_refusal(plan: SoundPlan, body: &[u8]) -> Result<(), Refusal>
    requires { length body.now ≡ SET-BODY }
    ensures { number_of_provisioned result ≡ first_of (replace_set_lines (plan_of plan.entry.memory.now) body.now) }
{
    if out_of_range(plan, body) {
        return Err(Refusal::Range);
    }
    if !keeps_groups(body) {
        return Err(Refusal::Groups);
    }
    if !changes::is_held(plan, body, 0) {
        return Err(Refusal::Absent);
    }
    if !fits_rules(plan, body) {
        return Err(Refusal::Misfit);
    }
    Ok(())
}

// Whether a rule names the set that a body names.
fn is_named(plan: SoundPlan, body: &[u8]) -> bool
    requires { length body.now ≡ SET-NUMBER-BYTES }
    ensures { result ≡ any (names (set_number body.now)) (plan_of plan.entry.memory.now).rules }
{
    0 < plan.referrers(plan::set_number(body, 0))
}

// The refusal of a set that is removed.
pub fn remove_set_refusal(plan: SoundPlan, body: &[u8]) -> Result<(), Refusal>
    requires { length body.now ≡ SET-NUMBER-BYTES }
    ensures { number_of_provisioned result ≡ first_of (remove_set_lines (plan_of plan.entry.memory.now) body.now) }
{
    if changes::is_over_room(plan, body, 0) {
        return Err(Refusal::Range);
    }
    if !changes::is_held(plan, body, 0) {
        return Err(Refusal::Absent);
    }
    if is_named(plan, body) {
        return Err(Refusal::InUse);
    }
    Ok(())
}

// WHAT AN ACCEPTED CALL MAKES

// The set that a body gives, added or replaced.
pub fn store_given(plan: &mut [u8], body: &[u8])
    requires { (sound_of plan.old ≡ true) × (length body.now ≡ SET-BODY) × (over_room (plan_of plan.old) (set_number body.now) ≡ false) }
    ensures { plan.new ≡ image (with_slot (set_number body.now) (some (content_given body.now)) (plan_of plan.old)) ++ rest_of plan.old }
{
    plan::store_set(plan, plan::set_number(body, 0), content_given(body));
}

// The set that a body names, removed.
pub fn clear_given(plan: &mut [u8], body: &[u8])
    requires { (sound_of plan.old ≡ true) × (length body.now ≡ SET-NUMBER-BYTES) × (over_room (plan_of plan.old) (set_number body.now) ≡ false) }
    ensures { plan.new ≡ image (with_slot (set_number body.now) none (plan_of plan.old)) ++ rest_of plan.old }
{
    plan::clear_set(plan, plan::set_number(body, 0));
}
