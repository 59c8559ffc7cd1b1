// The house records of an input that comes in parts: a step takes a record, or a line of a listing, and writes its line.
#![tactic(auto)]

ghost use Rattle.std.specs.Prelude.{◌≡◌, ◌≢◌, true, false, [], ◌≤◌, ◌<◌, length, get_or, eqb};
ghost use Rattle.meaning.specs.Sizes.{OPENING-BYTES, SET-NUMBER-BYTES};
ghost use Rattle.meaning.specs.Calls.{OPEN-PLAN, REFS, LIST, CALL, body_length};
ghost use Rattle.meaning.specs.Records.{no_line, refs_line};
ghost use Rattle.meaning.specs.Ledger.{ledger_of};
ghost use Rattle.meaning.specs.Answers.{number_of_refusal, number_of_edit, number_of_kind};
ghost use Rattle.meaning.specs.Reads.{referrer_count};
ghost use Rattle.meaning.specs.Basics.{word};
ghost use Rattle.plan.specs.State.{sound_of, state_of};
ghost use Rattle.prices.specs.Layout.{rows_in};
ghost use Rattle.billing.specs.Lines.{AnsweredPromise};
ghost use Rattle.text.specs.Writes.{LONGEST, Writes};
ghost use Rattle.run.specs.Runs.{InRun};
ghost use Rattle.record.specs.Turns.{record_turn, is_whole};
ghost use Rattle.record.specs.Numbers.{has_number, body_at, NumberAt, GivesPlace};
ghost use Rattle.record.specs.Promises.{lent, house_of, plan_house, InHouse, line_of, ReadPromise, PlanPromise, LinePromise, CutPromise, StepPromise, AnyStepPromise, whole_behind, whole_after};

use billing::Entered;
use meaning::kinds::{Edit, Kind};
use meaning::sizes::{
    CALL_BYTES, CALL_HEAD, LEDGER_NUMBERS, NUMBER_BYTES, RUN_BYTES, SET_NUMBER_BYTES,
};
use meaning::{Refusal, RulePlace, Totals, kinds};
use plan::SoundPlan;

// The bytes that a record of a kind takes: its kind, and its body.
const NUMBER_RECORD: usize = 1 + NUMBER_BYTES;

const CALL_RECORD: usize = 1 + CALL_BYTES;

const REFS_RECORD: usize = 1 + SET_NUMBER_BYTES;

const LIST_RECORD: usize = 1;

const LOSS_RECORD: usize = 1;

// The state of a run beside what is lent to it: whether an opening was accepted, how many lines of a listing or of the losses are counted already, and the whole's
// totals of the ledger.
#[derive(Clone, Copy)]
pub struct Run {
    pub opened: bool,
    pub lines: u16,
    pub whole: Totals,
}

// A line was written: how many bytes of the input it took, how many it has, and the state behind it.
#[derive(Clone, Copy)]
pub struct Line {
    pub taken: usize,
    pub written: usize,
    pub run: Run,
}

// Reading has ended: how many bytes the last line has, and the refusal that it writes; no line, and none, where the input has come to its end.
#[derive(Clone, Copy)]
pub struct Last {
    pub written: usize,
    pub refusal: Option<Refusal>,
}

// What a step answers.
#[derive(Clone, Copy)]
pub enum Stepped {
    Wrote(Line),
    // the input has no whole record yet
    Wants,
    // the output has no room for a line
    Full,
    Ends(Last),
}

// A line, and what it leaves.
fn line_of(taken: usize, written: usize, opened: bool, lines: u16, whole: Totals) -> Line
    ensures { result ≡ line_of taken written opened lines whole }
{
    Line {
        taken,
        written,
        run: Run {
            opened,
            lines,
            whole,
        },
    }
}

// The line of a refusal.
fn refused(refusal: Refusal, output: &mut [u8]) -> usize
    requires { LONGEST ≤ length output.old }
    ensures { Writes (no_line (number_of_refusal refusal)) output.old output.new result }
{
    text::no_line(u8::from(refusal), output)
}

// RECORDS BY THE PLAN ALONE

// An opening.
fn opening_record(plan: &mut [u8], run: Run, body: &[u8], output: &mut [u8]) -> Line
    requires { InRun plan.old run.opened × (length body.now ≡ OPENING-BYTES) × (LONGEST ≤ length output.old) }
    ensures { PlanPromise (record_turn (plan_house plan.old) run.lines OPEN-PLAN body.now) plan.old run output.old plan.new output.new result }
{
    let answer = run::open(plan, body);
    let opened = run.opened || answer.is_ok();
    let written = text::accepted_line(answer, output);
    line_of(1 + body.len(), written, opened, 0, run.whole)
}

// An edit.
fn edit_record(plan: &mut [u8], run: Run, edit: Edit, body: &[u8], output: &mut [u8]) -> Line
    requires { InRun plan.old run.opened × (length body.now ≡ body_length (number_of_edit edit)) × (LONGEST ≤ length output.old) }
    ensures { PlanPromise (record_turn (plan_house plan.old) run.lines (number_of_edit edit) body.now) plan.old run output.old plan.new output.new result }
{
    let answer = run::change(plan, run.opened, edit, body);
    let written = text::accepted_line(answer, output);
    line_of(1 + body.len(), written, run.opened, 0, run.whole)
}

// The line of a count of rules naming a set.
fn refs_line(plan: &[u8], opened: bool, body: &[u8], output: &mut [u8]) -> usize
    requires { (sound_of plan.now ≡ opened) × (length body.now ≡ SET-NUMBER-BYTES) × (LONGEST ≤ length output.old) }
    ensures { Writes (refs_line (referrer_count (state_of plan.now) (word body.now 0))) output.old output.new result }
{
    if !opened {
        return refused(Refusal::Plan, output);
    }
    let counted = reads::referrers_known(SoundPlan { memory: plan }, plan::set_number(body, 0));
    text::refs_line(counted, output)
}

// Its record.
fn refs_record(plan: &[u8], run: Run, body: &[u8], output: &mut [u8]) -> Line
    requires { (sound_of plan.now ≡ run.opened) × (length body.now ≡ SET-NUMBER-BYTES) × (LONGEST ≤ length output.old) }
    ensures { ReadPromise (record_turn (plan_house plan.now) run.lines REFS body.now) plan.now run output.old output.new result }
{
    let written = refs_line(plan, run.opened, body, output);
    line_of(REFS_RECORD, written, run.opened, 0, run.whole)
}

// The next line of a listing.
fn list_record(plan: &[u8], run: Run, output: &mut [u8]) -> Line
    requires { (sound_of plan.now ≡ run.opened) × (LONGEST ≤ length output.old) }
    ensures { ReadPromise (record_turn (plan_house plan.now) run.lines LIST []) plan.now run output.old output.new result }
{
    if !run.opened {
        let written = refused(Refusal::Plan, output);
        return line_of(LIST_RECORD, written, false, 0, run.whole);
    }
    let plan = SoundPlan { memory: plan };
    match listing::rule_known(plan, RulePlace(run.lines)) {
        Ok(rule) => {
            let written = text::listed_line(rule, output);
            line_of(0, written, true, run.lines + 1, run.whole)
        }
        Err(_) => {
            let ended = text::end_line(listing::count_known(plan), output);
            line_of(LIST_RECORD, ended, true, 0, run.whole)
        }
    }
}

// A NUMBER

// Whether a record of a kind has a number: alone, or in a call record.
fn has_number(kind: u8) -> bool
    ensures { result ≡ has_number kind }
{
    kind == kinds::NUMBER || kind == kinds::CALL
}

// Where the number of a record at the front of the input begins, or none where the record is cut; or it is refused before its number is looked at.
fn number_place(opened: bool, kind: u8, input: &[u8]) -> Result<Option<usize>, Refusal>
    requires { has_number kind ≡ true }
    ensures { GivesPlace opened kind input.now result }
{
    if kind == kinds::NUMBER {
        if input.len() < NUMBER_RECORD {
            return Ok(None);
        }
        if !opened {
            return Err(Refusal::Plan);
        }
        return Ok(Some(1));
    }
    if input.len() < CALL_RECORD {
        return Ok(None);
    }
    if !opened {
        return Err(Refusal::Plan);
    }
    if !charging::head_in_range(&input[1..CALL_RECORD]) {
        return Err(Refusal::Range);
    }
    Ok(Some(1 + CALL_HEAD))
}

// The line of a record whose number begins at a place of the input.
fn number_line(
    plan: &[u8],
    prices: &[u8],
    districts: &mut [i64; LEDGER_NUMBERS],
    run: Run,
    kind: u8,
    at: usize,
    input: &[u8],
    output: &mut [u8],
) -> Entered
    requires { InHouse (lent plan.now prices.now districts.old run.whole) run.opened × (run.opened ≡ true) × NumberAt kind input.now at × (LONGEST ≤ length output.old) }
    ensures { AnsweredPromise (eqb kind CALL) (state_of plan.now) (rows_in prices.now) (ledger_of districts.old run.whole) (body_at kind input.now) output.old (ledger_of districts.new result.whole) output.new result.written }
{
    let end = at + NUMBER_BYTES;
    let number = &input[at..end];
    if !ranges::number_in_range(number) {
        return billing::refused_line(u8::from(Refusal::Range), run.whole, output);
    }
    billing::answered_line(
        SoundPlan { memory: plan },
        prices,
        districts,
        run.whole,
        kind == kinds::CALL,
        &input[1..end],
        number,
        output,
    )
}

// A RECORD

// A whole record that has no number.
fn whole_record(
    plan: &mut [u8],
    prices: &mut [u8],
    districts: &[i64; LEDGER_NUMBERS],
    run: Run,
    kind: Kind,
    body: &[u8],
    output: &mut [u8],
) -> Line
    requires { InHouse (lent plan.old prices.old districts.now run.whole) run.opened × (has_number (number_of_kind kind) ≡ false) × (length body.now ≡ body_length (number_of_kind kind)) × (LONGEST ≤ length output.old) }
    ensures { LinePromise (record_turn (house_of (lent plan.old prices.old districts.now run.whole)) run.lines (number_of_kind kind) body.now) (lent plan.old prices.old districts.now run.whole) output.old (lent plan.new prices.new districts.now result.run.whole) output.new result }
{
    match kind {
        Kind::Opening => opening_record(plan, run, body, output),
        Kind::Edit(edit) => edit_record(plan, run, edit, body, output),
        Kind::Number => unreachable!(),
        Kind::Refs => refs_record(plan, run, body, output),
        Kind::List => list_record(plan, run, output),
        Kind::Call => unreachable!(),
        Kind::Price => {
            let added = billing::price_record(prices, body, output);
            line_of(1 + body.len(), added, run.opened, 0, run.whole)
        }
        Kind::Losses => {
            let reported = billing::loss_record(districts, run.whole, run.lines, output);
            match reported.next {
                Some(next) => line_of(0, reported.written, run.opened, next, run.whole),
                None => line_of(LOSS_RECORD, reported.written, run.opened, 0, run.whole),
            }
        }
    }
}

// A STEP

// A body that is cut has its line where the input has ended.
fn cut_record(ended: bool, output: &mut [u8]) -> Stepped
    requires { LONGEST ≤ length output.old }
    ensures { CutPromise ended output.old output.new result }
{
    if !ended {
        return Stepped::Wants;
    }
    Stepped::Ends(Last {
        written: refused(Refusal::Cut, output),
        refusal: Some(Refusal::Cut),
    })
}

// Whether the input at hand has a whole record, so that a step need not wait for more.
pub fn is_whole(input: &[u8]) -> bool
    ensures { result ≡ is_whole input.now }
{
    if input.len() == 0 {
        return false;
    }
    kinds::body_length(input[0]) < input.len()
}

// A step over an input that begins with a record that has a number, for which the output has room.
fn number_step(
    plan: &[u8],
    prices: &[u8],
    districts: &mut [i64; LEDGER_NUMBERS],
    run: Run,
    kind: u8,
    ended: bool,
    input: &[u8],
    output: &mut [u8],
) -> Stepped
    requires { InHouse (lent plan.now prices.now districts.old run.whole) run.opened × (length input.now ≢ 0) × (kind ≡ get_or input.now 0 0) × (has_number kind ≡ true) × (LONGEST ≤ length output.old) }
    ensures { StepPromise (lent plan.now prices.now districts.old run.whole) run.lines ended input.now output.old (lent plan.now prices.now districts.new (whole_behind run.whole result)) output.new result }
{
    match number_place(run.opened, kind, input) {
        Ok(None) => cut_record(ended, output),
        Ok(Some(at)) => {
            let entered = number_line(plan, prices, districts, run, kind, at, input, output);
            let left = entered.whole;
            Stepped::Wrote(line_of(at + NUMBER_BYTES, entered.written, true, 0, left))
        }
        Err(refusal) => {
            let written = refused(refusal, output);
            let taken = 1 + kinds::body_length(kind);
            Stepped::Wrote(line_of(taken, written, run.opened, 0, run.whole))
        }
    }
}

// One step: a record of the input at hand, or a line of one that has more, whose line goes to the front of the output. Whether the memory holds a sound plan is known.
pub fn step_known(
    plan: &mut [u8],
    prices: &mut [u8],
    districts: &mut [i64; LEDGER_NUMBERS],
    run: Run,
    ended: bool,
    input: &[u8],
    output: &mut [u8],
) -> Stepped
    requires { InHouse (lent plan.old prices.old districts.old run.whole) run.opened }
    ensures { StepPromise (lent plan.old prices.old districts.old run.whole) run.lines ended input.now output.old (lent plan.new prices.new districts.new (whole_behind run.whole result)) output.new result }
{
    if input.len() == 0 {
        if ended {
            return Stepped::Ends(Last {
                written: 0,
                refusal: None,
            });
        }
        return Stepped::Wants;
    }
    if output.len() < text::LONGEST_LINE {
        return Stepped::Full;
    }
    if has_number(input[0]) {
        return number_step(plan, prices, districts, run, input[0], ended, input, output);
    }
    let Ok(kind) = Kind::try_from(input[0]) else {
        return Stepped::Ends(Last {
            written: refused(Refusal::Kind, output),
            refusal: Some(Refusal::Kind),
        });
    };
    let end = 1 + kind.body_length();
    if input.len() < end {
        return cut_record(ended, output);
    }
    Stepped::Wrote(whole_record(plan, prices, districts, run, kind, &input[1..end], output))
}

// One step over anything lent, any input and any output, with the whole's totals of the ledger and so many lines of a record counted already; none where the memory
// is too small for a run's plan, or the price list or the ledger is out of range.
pub fn step(
    plan: &mut [u8],
    prices: &mut [u8],
    districts: &mut [i64; LEDGER_NUMBERS],
    whole: Totals,
    lines: u16,
    ended: bool,
    input: &[u8],
    output: &mut [u8],
) -> Option<Stepped>
    ensures { AnyStepPromise (lent plan.old prices.old districts.old whole) lines ended input.now output.old (lent plan.new prices.new districts.new (whole_after whole result)) output.new result }
{
    if plan.len() < RUN_BYTES {
        return None;
    }
    if !prices::in_range(prices) {
        return None;
    }
    if !ledger::in_range(districts, whole) {
        return None;
    }
    let run = Run {
        opened: examiner::sound(plan),
        lines,
        whole,
    };
    Some(step_known(plan, prices, districts, run, ended, input, output))
}
