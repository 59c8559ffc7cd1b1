// Answering a number over a plan: the choice of a rule, conditioning, the service actions and formatting, with every field of the answer.
#![tactic(auto)]

ghost use Rattle.std.specs.Prelude.{◌≡◌, true, ◌≤◌, length, get_or};
ghost use Rattle.meaning.specs.Sizes.{CLASS-AT, NUMBER-BYTES};
ghost use Rattle.meaning.specs.Settings.{number_of, number_in_range};
ghost use Rattle.meaning.specs.Answer.{refused, unserved, outgoing_class, answer_of};
ghost use Rattle.meaning.specs.Answers.{answered_as, number_of_refusal};
ghost use Rattle.formatting.specs.Sources.{lookup_in, digits_in, Formattable};
ghost use Rattle.formatting.specs.Joins.{outgoing_by};
ghost use Rattle.plan.specs.Layout.{plan_of};
ghost use Rattle.number.specs.Answering.{number_of_outcome, ANSWER-BYTES, counted_as, finished, given_by, Answerable, Digits, Ready, Holdable, Placed};
ghost use Rattle.number.specs.Promises.{HoldsAnswer, GivesAnswer, AnswerPromise};

use choice::choose;
use conditioning::{Marks, mark_spans};
use formatting::join_outgoing;
use meaning::refusals::ACCEPTED;
use meaning::sizes::{
    CLASS_AT, DIALLED_AT, DIALLED_DIGITS_AT, DIGIT_ROOM, LOOKUP_AT, NUMBER_BYTES, OUTGOING_AT,
    VALUE_BYTES,
};
use meaning::{Answered, Outgoing, Refusal};
use plan::{HeldRule, SoundPlan};
use services::Served;

// The most digits of an answer.
const MOST: usize = 32;

// The bytes that the outgoing digits take while they are made: behind them is room for the two blocks that a value may take.
pub const ANSWER_BYTES: usize = 64;

// The first response that ends the service stage.
const CONNECT: u8 = 2;

// What becomes of a number.
#[derive(Clone, Copy)]
pub enum Outcome {
    NoRule,
    Escaped,
    Responded,
    Unchanged,
    Formatted,
}

// Document 01's number.
impl From<Outcome> for u8 {
    ghost from_gives = { λ outcome n. n ≡ number_of_outcome outcome };

    fn from(outcome: Outcome) -> u8 {
        match outcome {
            Outcome::NoRule => 0,
            Outcome::Escaped => 1,
            Outcome::Responded => 2,
            Outcome::Unchanged => 3,
            Outcome::Formatted => 4,
        }
    }
}

// A refusal: its number, and every other field 0.
#[tactic(auto, unfolding(meaning::specs::Answer::refused))]
pub fn refused(number: u8) -> Answered
    ensures { result ≡ answered_as (refused number) }
{
    Answered {
        refusal: number,
        outcome: 0,
        class: 0,
        response: 0,
        count: 0,
        actions: [0u8; 8],
        digits: 0,
    }
}

// The same of one that is known.
pub fn refuse(refusal: Refusal) -> Answered
    ensures { result ≡ answered_as (refused (number_of_refusal refusal)) }
{
    refused(u8::from(refusal))
}

// An answer before the service actions.
#[tactic(auto, unfolding(meaning::specs::Answer::unserved))]
fn unserved(outcome: Outcome, class: u8) -> Answered
    ensures { result ≡ answered_as (unserved (number_of_outcome outcome) class) }
{
    Answered {
        refusal: ACCEPTED,
        outcome: u8::from(outcome),
        class,
        response: 0,
        count: 0,
        actions: [0u8; 8],
        digits: 0,
    }
}

// An answer after the service actions.
fn served(outcome: Outcome, class: u8, s: Served, digits: usize) -> Answered
    ensures { result ≡ counted_as (number_of_outcome outcome) class s digits }
{
    let actions = s.actions;
    Answered {
        refusal: ACCEPTED,
        outcome: u8::from(outcome),
        class,
        response: s.effect.response,
        count: s.count,
        actions,
        digits,
    }
}

// The set's class, or the incoming one where that is "as incoming".
fn outgoing_class(set: u8, incoming: u8) -> u8
    ensures { result ≡ outgoing_class set incoming }
{
    match Outgoing::try_from(set) {
        Ok(Outgoing::Given(class)) => u8::from(class),
        Ok(Outgoing::AsIncoming) => incoming,
        Err(_) => set,
    }
}

// What follows the service actions: a response, formatting withheld, or the outgoing digits, unless they are too many. `class` is the outgoing one; the table has
// what conditioning took of the number.
fn finish(
    settings: &[u8],
    body: &[u8],
    cas: &[u8],
    s: Served,
    fas: &[u8],
    marks: &mut Marks,
    incoming: u8,
    class: u8,
    out: &mut [u8],
) -> Answered
    requires { Formattable settings.now body.now marks.old × (ANSWER-BYTES ≤ length out.old) }
    ensures { HoldsAnswer (finished incoming class s (outgoing_by settings.now body.now cas.now marks.old s fas.now)) out.new result }
{
    if CONNECT <= s.effect.response {
        return served(Outcome::Responded, incoming, s, 0);
    }
    if s.effect.withheld {
        return served(Outcome::Unchanged, incoming, s, 0);
    }
    let written = join_outgoing(settings, body, cas, s, fas, marks, MOST, out);
    if MOST < written {
        return refuse(Refusal::Long);
    }
    served(Outcome::Formatted, class, s, written)
}

// What a rule with a prefix of that many digits and the content of its set make of a number of n digits.
fn answer_by(
    settings: &[u8],
    body: &[u8],
    n: usize,
    prefix: usize,
    content: &[u8],
    out: &mut [u8],
) -> Answered
    requires { Answerable settings.now body.now n content.now out.old }
    ensures { HoldsAnswer (given_by settings.now (lookup_in body.now) (get_or body.now CLASS-AT 0) (digits_in n body.now) prefix content.now) out.new result }
{
    let class = body[CLASS_AT];
    let cas = actions::cas_of(content);
    let sent = outgoing_class(content[OUTGOING_AT], class);
    if actions::no_conditioning(cas) {
        return unserved(Outcome::Escaped, sent);
    }
    let mut marks = Marks::none();
    if mark_spans(cas, prefix, n, DIALLED_DIGITS_AT, &mut marks) {
        return refuse(Refusal::Short);
    }
    let s = services::service_stage(
        actions::sas_of(content),
        settings,
        &body[LOOKUP_AT..VALUE_BYTES],
    );
    let fas = actions::fas_of(content);
    finish(settings, body, cas, s, fas, &mut marks, class, sent, out)
}

// The digits of a body in range.
pub fn digits_in(body: &[u8]) -> &[u8]
    requires { (length body.now ≡ NUMBER-BYTES) × (number_in_range body.now ≡ true) }
    ensures { Digits body.now result.now }
{
    let e = usize::from(body[DIALLED_AT]) + DIALLED_DIGITS_AT;
    &body[DIALLED_DIGITS_AT..e]
}

// The answer by the rule chosen for a number of n digits.
fn answer_at(rule: HeldRule, body: &[u8], n: usize, out: &mut [u8]) -> Answered
    requires { Placed rule.plan.memory.now body.now n rule.place.0 out.old }
    ensures { HoldsAnswer (answer_of (plan_of rule.entry.plan.memory.now) (number_of body.now)) out.new result }
{
    answer_by(
        rule.plan.settings(),
        body,
        n,
        rule.prefix(),
        rule.content(),
        out,
    )
}

// The answer for a body of just its length that is in range. The outgoing digits stand at the front of a buffer of which nothing else is kept.
pub fn answer_held(plan: SoundPlan, body: &[u8], out: &mut [u8]) -> Answered
    requires { Holdable body.now out.old }
    ensures { HoldsAnswer (answer_of (plan_of plan.entry.memory.now) (number_of body.now)) out.new result }
{
    let digits = digits_in(body);
    let class = body[CLASS_AT];
    match choose(plan, class, digits) {
        None => unserved(Outcome::NoRule, class),
        Some(rule) => answer_at(rule, body, digits.len(), out),
    }
}

// The same with the outgoing digits at the front of a lent buffer; the bytes behind them stay.
pub fn answer_known(plan: SoundPlan, body: &[u8], out: &mut [u8]) -> Answered
    requires { Ready body.now out.old }
    ensures { GivesAnswer (answer_of (plan_of plan.entry.memory.now) (number_of body.now)) out.old out.new result }
{
    let mut digits = [0u8; ANSWER_BYTES];
    let a = answer_held(plan, body, &mut digits);
    let n = a.digits;
    buffer::copy(out, &digits[0..n]);
    a
}

// The answer to a number, for any plan bytes, any body bytes and any buffer.
pub fn answer(plan: &[u8], body: &[u8], out: &mut [u8]) -> Answered
    ensures { AnswerPromise plan.now body.now out.old out.new result }
{
    if body.len() < NUMBER_BYTES {
        return refuse(Refusal::Cut);
    }
    let plan = match examiner::examine(plan) {
        Ok(plan) => plan,
        Err(refusal) => return refuse(refusal),
    };
    if out.len() < DIGIT_ROOM {
        return refuse(Refusal::Room);
    }
    let number = &body[0..NUMBER_BYTES];
    if !ranges::number_in_range(number) {
        return refuse(Refusal::Range);
    }
    answer_known(plan, number, out)
}
