// The four read calls: the conditioned number, the stretch of a value, a set's content, and the count of rules naming a set; for any plan
// bytes, any arguments and any lent buffer.
#![tactic(auto)]

ghost use Rattle.std.specs.Prelude.{◌≡◌, true, ◌∷◌, ◌+◌, ◌≤◌, ◌/◌, ◌%◌, length};
ghost use Rattle.std.proofs.Math.Option.{some};
ghost use Rattle.meaning.specs.Sizes.{CONTENT-BYTES, SET-BODY, DIGIT-ROOM};
ghost use Rattle.meaning.specs.Basics.{written_over, within};
ghost use Rattle.meaning.specs.Settings.{dialled_in_range};
ghost use Rattle.meaning.specs.Actions.{LAST-CONDITIONED};
ghost use Rattle.meaning.specs.Rules.{chosen};
ghost use Rattle.meaning.specs.Reads.{conditioned_under, stretch_under, set_content, referrer_count};
ghost use Rattle.meaning.specs.Answers.{count_of};
ghost use Rattle.conditioning.specs.Spans.{Covers};
ghost use Rattle.plan.specs.Layout.{plan_of};
ghost use Rattle.plan.specs.Readings.{rule_placed};
ghost use Rattle.reads.specs.Promises.{GivesRead, ConditionedPromise, SpanPromise, StretchPromise, ContentPromise, ReferrersPromise};
ghost use Rattle.reads.specs.Applies.{Applies};
ghost use Rattle.reads.specs.Sets.{set_there};

use meaning::fa::LAST_CONDITIONED;
use meaning::sizes::{DIGIT_ROOM, SET_BODY, SET_NUMBER_BYTES};
use meaning::{Refusal, SetNumber, Span};
use plan::{HeldRule, SoundPlan};

// A set that is not there is refused: a number over the room, and one that is not held.
fn check_held(plan: SoundPlan, set: SetNumber) -> Result<(), Refusal>
    ensures { result ≡ set_there (plan_of plan.entry.memory.now) set.0 }
{
    if plan.is_over_room(set) {
        return Err(Refusal::Range);
    }
    if !plan.is_held(set) {
        return Err(Refusal::Absent);
    }
    Ok(())
}

// A SET'S CONTENT

// A kind 1 body at the front of the buffer; the bytes behind it stay.
fn write_content(set: SetNumber, content: &[u8], out: &mut [u8])
    requires { (length content.now ≡ CONTENT-BYTES) × (SET-BODY ≤ length out.old) }
    ensures { out.new ≡ written_over (set.0 / 256 ∷ set.0 % 256 ∷ content.now) out.old }
{
    buffer::put_word(out, 0, set.0 as usize);
    buffer::copy(&mut out[SET_NUMBER_BYTES..SET_BODY], content);
}

// Over a plan that is known to be sound, with room for the body.
pub fn set_content_known(plan: SoundPlan, set: SetNumber, out: &mut [u8]) -> Result<usize, Refusal>
    requires { SET-BODY ≤ length out.old }
    ensures { GivesRead (set_content (some (plan_of plan.entry.memory.now)) (length out.old) set.0) out.old out.new result }
{
    check_held(plan, set)?;
    write_content(set, plan.content(set), out);
    Ok(SET_BODY)
}

// The content of a set, as a kind 1 body at the front of the buffer.
pub fn set_content(plan: &[u8], set: SetNumber, out: &mut [u8]) -> Result<usize, Refusal>
    ensures { ContentPromise plan.now set.0 out.old out.new result }
{
    let plan = examiner::examine(plan)?;
    if out.len() < SET_BODY {
        return Err(Refusal::Room);
    }
    set_content_known(plan, set, out)
}

// THE COUNT OF RULES NAMING A SET

// Over a plan that is known to be sound.
pub fn referrers_known(plan: SoundPlan, set: SetNumber) -> Result<usize, Refusal>
    ensures { count_of result ≡ referrer_count (some (plan_of plan.entry.memory.now)) set.0 }
{
    check_held(plan, set)?;
    Ok(plan.referrers(set))
}

// How many rules name a set.
pub fn referrers(plan: &[u8], set: SetNumber) -> Result<usize, Refusal>
    ensures { ReferrersPromise plan.now set.0 result }
{
    let plan = examiner::examine(plan)?;
    referrers_known(plan, set)
}

// THE CONDITIONED NUMBER

// By the rule that is chosen for the number.
fn conditioned_at<'a>(
    rule: HeldRule<'a>,
    digits: &'a [u8],
    out: &mut [u8],
) -> Result<usize, Refusal>
    requires applies { Applies rule.plan.memory.now rule.place.0 digits.now }
    requires in_bounds { DIGIT-ROOM ≤ length out.old }
    ensures { GivesRead (conditioned_under (plan_of rule.entry.plan.memory.now) digits.now (some (rule_placed rule.entry.plan.memory.now rule.entry.place.0))) out.old out.new result }
{
    let cas = actions::cas_of(rule.content());
    if actions::no_conditioning(cas) {
        return Ok(0);
    }
    let prefix = rule.prefix();
    if conditioning::is_short(cas, prefix, digits.len()) {
        return Err(Refusal::Short);
    }
    let settings = rule.plan.settings();
    Ok(formatting::write_conditioned(settings, digits, cas, prefix, out))
}

// Over a plan that is known to be sound, for digits in range, with room for the number.
pub fn conditioned_known<'a>(
    plan: SoundPlan<'a>,
    class: u8,
    digits: &'a [u8],
    out: &mut [u8],
) -> Result<usize, Refusal>
    requires { (dialled_in_range class digits.now ≡ true) × (DIGIT-ROOM ≤ length out.old) }
    ensures { GivesRead (conditioned_under (plan_of plan.entry.memory.now) digits.now (chosen class digits.now (plan_of plan.entry.memory.now).rules)) out.old out.new result }
{
    match choice::choose(plan, class, digits) {
        None => Ok(0),
        Some(rule) => conditioned_at(rule, digits, out),
    }
}

// The conditioned number, for the lookup, at the front of the buffer.
pub fn conditioned<'a>(
    plan: &'a [u8],
    class: u8,
    digits: &'a [u8],
    out: &mut [u8],
) -> Result<usize, Refusal>
    ensures { ConditionedPromise plan.now class digits.now out.old out.new result }
{
    let plan = examiner::examine(plan)?;
    if out.len() < DIGIT_ROOM {
        return Err(Refusal::Room);
    }
    if !ranges::dialled_in_range(class, digits) {
        return Err(Refusal::Range);
    }
    conditioned_known(plan, class, digits, out)
}

// THE STRETCH OF A VALUE

// Whether conditioning sets a value of this number.
fn is_conditioned(value: u8) -> bool
    ensures { result ≡ within 1 LAST-CONDITIONED value }
{
    (1..=LAST_CONDITIONED).contains(&value)
}

// Over a plan that is known to be sound, for digits and a value in range.
pub fn span_known(plan: SoundPlan, class: u8, digits: &[u8], value: u8) -> Span
    ensures { Covers (length digits.now) (stretch_under (plan_of plan.entry.memory.now) value (length digits.now) (chosen class digits.now (plan_of plan.entry.memory.now).rules)) result }
{
    match choice::choose(plan, class, digits) {
        None => Span { start: 0, count: 0 },
        Some(rule) => {
            let cas = actions::cas_of(rule.content());
            conditioning::span_in(cas, rule.prefix(), digits.len(), value)
        }
    }
}

// Where the stretch of a value starts and how many digits it has: none where the value is not taken from the number or anything is refused.
pub fn span(plan: &[u8], class: u8, digits: &[u8], value: u8) -> Span
    ensures { SpanPromise plan.now class digits.now value result × (result.start + result.count ≤ length digits.now) }
{
    let Ok(plan) = examiner::examine(plan) else {
        return Span { start: 0, count: 0 };
    };
    if !ranges::dialled_in_range(class, digits) || !is_conditioned(value) {
        return Span { start: 0, count: 0 };
    }
    span_known(plan, class, digits, value)
}

// The very part of the incoming digits.
pub fn stretch<'a>(plan: &[u8], class: u8, digits: &'a [u8], value: u8) -> &'a [u8]
    ensures { StretchPromise plan.now class digits.now digits.entry.ref_ptr value result.now result.ref_ptr }
{
    let s = span(plan, class, digits, value);
    let start = s.start;
    let end = start + s.count;
    &digits[start..end]
}
