// What a provisioning call promises, and what such calls ask of their bodies.
#![tactic(auto)]

ghost use Rattle.std.specs.Prelude.{◌≡◌, ◌+◌, ◌≤◌, ◌<◌, length};
ghost use Rattle.meaning.specs.Sizes.{CONTENT-BYTES, SET-BODY, FILTER-BYTES};
ghost use Rattle.meaning.specs.Basics.{is_some, word};
ghost use Rattle.meaning.specs.Filters.{filter_of};
ghost use Rattle.meaning.specs.Actions.{actions_of};
ghost use Rattle.meaning.specs.Groups.{fit};
ghost use Rattle.meaning.specs.Plan.{held};
ghost use Rattle.meaning.specs.Reads.{over_room};
ghost use Rattle.filter.specs.Slots.{FilterBytes};
ghost use Rattle.plan.specs.Layout.{plan_of};
ghost use Rattle.changes.specs.Given.{ContentGiven, CodeGiven};

use meaning::sizes::{FILTER_BYTES, LENGTH_AT, PREFIX_AT, SET_BODY, SET_NUMBER_BYTES};
use plan::SoundPlan;

// The content that the body of a set gives.
pub fn content_given<'a>(body: &'a [u8]) -> &'a [u8]
    requires { length body.now ≡ SET-BODY }
    ensures { ContentGiven body.now result.now }
{
    &body[SET_NUMBER_BYTES..SET_BODY]
}

// The filter that the body of a rule gives.
pub fn code_given<'a>(body: &'a [u8]) -> &'a [u8]
    requires { FILTER-BYTES ≤ length body.now }
    ensures { CodeGiven body.now result.now }
{
    &body[0..FILTER_BYTES]
}

// Whether the set number at a place of a body is at or over the room.
pub fn is_over_room(plan: SoundPlan, body: &[u8], at: usize) -> bool
    requires { at + 1 < length body.now }
    ensures { result ≡ over_room (plan_of plan.entry.memory.now) (word body.now at) }
{
    plan.is_over_room(plan::set_number(body, at))
}

// Whether the set that a body names, at a place of it, is held.
pub fn is_held(plan: SoundPlan, body: &[u8], at: usize) -> bool
    requires { at + 1 < length body.now }
    ensures { result ≡ is_some (held (plan_of plan.entry.memory.now) (word body.now at)) }
{
    plan.is_held(plan::set_number(body, at))
}

// Whether a filter and a set's content fit.
pub fn fits(code: &[u8], content: &[u8]) -> bool
    requires content_len { length content.now ≡ CONTENT-BYTES }
    requires filter_bytes { FilterBytes code.now }
    ensures { result ≡ fit (filter_of code.now) (actions_of content.now) }
{
    actions::fits_content(
        usize::from(code[PREFIX_AT]),
        usize::from(code[LENGTH_AT]),
        content,
    )
}
