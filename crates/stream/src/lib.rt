// Files of house records: what a source gives is taken in turns, and the lines are handed to a sink. This crate calls no function of the system: what is read and
// written passes through `descriptors` alone, to which it hands the reader and the writer on.
#![tactic(auto)]

ghost use Rattle.std.specs.Prelude.{◌≡◌, false, ◌+◌, ◌-◌, ◌≤◌, length, take, drop};
ghost use Rattle.meaning.specs.Sizes.{LONGEST-RECORD, PRICES-BYTES, RUN-BYTES};
ghost use Rattle.meaning.specs.Basics.{written_over};
ghost use Rattle.text.specs.Writes.{LONGEST};
ghost use Rattle.record.specs.Promises.{lent};
ghost use Rattle.descriptors.specs.Moves.{MOST, WritePromise};
ghost use Rattle.stream.specs.Turnings.{SupplyPromise, Suppliable, GatherPromise, Gatherable, unread_of, turned_by, rest_in, AdvancePromise, Advanceable, Turnable, TurnPromise};
ghost use Rattle.stream.specs.Copies.{BUFFER, BeginPromise, CopyPromise};

use descriptors::{AtHand, Sink, Source};
use meaning::sizes::LEDGER_NUMBERS;
use meaning::{Refusal, Totals};
use pump::{Pumped, Stop};
use record::Run;
use std::io::{Read, Write};

// Where a copy stands between two turns: the state of the run, the source and the sink, and the bytes of the input that are at hand, from `at` to `end`: those
// before `at` are taken.
#[derive(Clone, Copy)]
pub struct Rest {
    pub run: Run,
    pub source: Source,
    pub sink: Sink,
    pub at: usize,
    pub end: usize,
}

// Reading has ended: the refusal that ended it, or none where the file has come to its end; the place in the file of that record's kind byte, counted from 0, or
// the file's length; and where the copy stands.
#[derive(Clone, Copy)]
pub struct Ending {
    pub refusal: Option<Refusal>,
    pub place: u64,
    pub rest: Rest,
}

// How a turn ended, or all of them: it goes on, reading has ended, a read or a write failed, or the turns are spent.
#[derive(Clone, Copy)]
pub enum Turned {
    Goes(Rest),
    Done(Ending),
    NotRead(Rest),
    NotWritten(Rest),
    Spent(Rest),
}

// The most turns of a copy.
const TURNS: u64 = 140737488355328;

// The state that a run begins with: what is lent is cleared, so that it holds no plan, no row and no record.
fn begin(plan: &mut [u8], prices: &mut [u8], districts: &mut [i64; LEDGER_NUMBERS]) -> Run
    ensures { BeginPromise plan.old prices.old plan.new prices.new districts.new result }
{
    buffer::clear(plan);
    buffer::clear(prices);
    ledger::clear(districts);
    Run {
        opened: false,
        lines: 0,
        whole: Totals {
            count: 0,
            due: 0,
            billed: 0,
        },
    }
}

// ONE TURN

// Moves what is left of the input to its front, and answers how many bytes that is; the bytes behind them stay.
fn settle(at: usize, end: usize, input: &mut [u8]) -> usize
    requires { (at ≤ end) × (end ≤ length input.old) }
    ensures value { result ≡ end - at }
    ensures input_after { input.new ≡ written_over (take (end - at) (drop at input.old)) input.old }
{
    buffer::shift_down(&mut input[0..end], at);
    end - at
}

// The input at hand: what is left, and what one read gives behind it. No read is made where the input has ended or a whole record is left.
fn supply<R: Read>(reader: &mut R, source: Source, left: usize, input: &mut [u8]) -> AtHand
    requires { Suppliable source left input.old }
    ensures { SupplyPromise source left input.old input.new result }
{
    if source.ended() {
        return AtHand {
            end: left,
            source: source,
        };
    }
    if record::is_whole(&input[0..left]) {
        return AtHand {
            end: left,
            source: source,
        };
    }
    descriptors::fill(reader, source, left, input)
}

// What is left moves to the front, and is supplied.
fn gather<R: Read>(reader: &mut R, rest: Rest, input: &mut [u8]) -> AtHand
    requires { Gatherable rest (length input.old) }
    ensures { GatherPromise rest input.old input.new result }
{
    let left = settle(rest.at, rest.end, input);
    supply(reader, rest.source, left, input)
}

// A read failed: what was left is at hand, and nothing of it is taken.
fn unread(rest: Rest, h: AtHand) -> Rest
    ensures { result ≡ unread_of rest h }
{
    let source = h.source;
    let mut now = rest;
    now.source = source;
    now.at = 0;
    now.end = h.end;
    now
}

// Hands out what the steps wrote: the front of the output.
fn hand<W: Write>(writer: &mut W, sink: Sink, p: Pumped, output: &[u8]) -> Sink
    requires { (p.written ≤ length output.now) × (sink.failed ≡ false) × (sink.written + p.written ≤ MOST) }
    ensures { WritePromise sink p.written result }
{
    let n = p.written;
    descriptors::write(writer, sink, &output[0..n], n, output)
}

// How a turn ended, by what was at hand, what the steps over it did, and what became of their text.
fn conclude(h: AtHand, p: Pumped, sink: Sink) -> Turned
    requires { (p.taken ≤ h.end) × (h.end - p.taken ≤ h.source.given) }
    ensures { result ≡ turned_by h p sink }
{
    let source = h.source;
    let run = p.run;
    let rest = Rest {
        run: run,
        source: source,
        sink: sink,
        at: p.taken,
        end: h.end,
    };
    if sink.failed() {
        return Turned::NotWritten(rest);
    }
    match p.stop {
        Stop::Wants => Turned::Goes(rest),
        Stop::Full => Turned::Goes(rest),
        Stop::Over(refusal) => {
            let left = h.end - p.taken;
            Turned::Done(Ending {
                refusal,
                place: source.given() - left as u64,
                rest,
            })
        }
    }
}

// Steps over the input at hand, and a write of what they wrote; nothing where the read failed.
fn advance<W: Write>(
    writer: &mut W,
    plan: &mut [u8],
    prices: &mut [u8],
    districts: &mut [i64; LEDGER_NUMBERS],
    rest: Rest,
    h: AtHand,
    input: &[u8],
    output: &mut [u8],
) -> Turned
    requires { Advanceable (lent plan.old prices.old districts.old rest.run.whole) rest h (length input.now) (length output.old) }
    ensures { AdvancePromise (lent plan.old prices.old districts.old rest.run.whole) rest h input.now output.old (lent plan.new prices.new districts.new (rest_in result).run.whole) output.new result }
{
    let source = h.source;
    if source.failed() {
        return Turned::NotRead(unread(rest, h));
    }
    let end = h.end;
    let p = pump::pump(
        plan,
        prices,
        districts,
        rest.run,
        source.ended(),
        &input[0..end],
        output,
    );
    let sink = hand(writer, rest.sink, p, output);
    conclude(h, p, sink)
}

// A read behind what is left, or none, and what is done with the input at hand.
fn turn<R: Read, W: Write>(
    reader: &mut R,
    writer: &mut W,
    plan: &mut [u8],
    prices: &mut [u8],
    districts: &mut [i64; LEDGER_NUMBERS],
    rest: Rest,
    input: &mut [u8],
    output: &mut [u8],
) -> Turned
    requires { Turnable (lent plan.old prices.old districts.old rest.run.whole) rest (length input.old) (length output.old) }
    ensures { TurnPromise (lent plan.old prices.old districts.old rest.run.whole) rest input.old output.old (lent plan.new prices.new districts.new (rest_in result).run.whole) input.new output.new result }
{
    let h = gather(reader, rest, input);
    advance(writer, plan, prices, districts, rest, h, input, output)
}

// ALL TURNS

// Writes to one descriptor the lines of the house records that another gives, to its end or until reading has ended. The reader is the one of `from`, and the
// writer that of `to`.
pub fn copy<R: Read, W: Write>(
    reader: &mut R,
    writer: &mut W,
    from: i32,
    to: i32,
    plan: &mut [u8],
    prices: &mut [u8],
    districts: &mut [i64; LEDGER_NUMBERS],
    input: &mut [u8],
    output: &mut [u8],
) -> Turned
    requires in_bounds { (RUN-BYTES ≤ length plan.old) × (length prices.old ≡ PRICES-BYTES) × (LONGEST-RECORD ≤ length input.old) × (LONGEST ≤ length output.old) }
    requires small_buffers { (length input.old ≤ BUFFER) × (length output.old ≤ BUFFER) }
    ensures { CopyPromise from to (length plan.old) input.old output.old (lent plan.new prices.new districts.new (rest_in result).run.whole) input.new output.new result }
{
    let run = begin(plan, prices, districts);
    let mut rest = Rest {
        run: run,
        source: Source::new(from),
        sink: Sink::new(to),
        at: 0,
        end: 0,
    };
    let mut turns = TURNS;
    while turns > 0 {
        let t = turn(reader, writer, plan, prices, districts, rest, input, output);
        let Turned::Goes(next) = t else {
            return t;
        };
        rest = next;
        turns -= 1;
    }
    Turned::Spent(rest)
}
