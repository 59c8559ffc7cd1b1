// Conditioning: which stretch of the incoming number each conditioning action takes.
#![tactic(auto)]

ghost use Rattle.std.specs.Prelude.{◌≡◌, false, ◌<◌, length};
ghost use Rattle.std.specs.Prelude.{if◌then◌else◌};
ghost use Rattle.meaning.specs.Actions.{cas_of, is_x};
ghost use Rattle.meaning.specs.Groups.{fixed_of};
ghost use Rattle.meaning.specs.Conditioning.{width, meets_too_few, short, takes_value, stretch_of, digits_at};
ghost use Rattle.actions.specs.Reading.{action_of};
ghost use Rattle.conditioning.specs.Spans.{stretch_in, Covers};
ghost use Rattle.conditioning.specs.Marks.{PLACES, Takes, no_marks, marked, marked_anew, MarksOnce, Markable, MarksUnlessShort};

use actions::{ConditioningAction, actions_in, fixed_of, is_x, value_of};
use meaning::Span;
use meaning::ca::CCDEF;
use meaning::fa::DELIMITER_B;

// How many digits an action takes where `left` are left. The fixed count is worked out before the test, so that the compiler can pick one of the two without a jump.
fn width(a: ConditioningAction, prefix: usize, left: usize) -> usize
    ensures { result ≡ width prefix left (action_of a) }
{
    let fixed = fixed_of(a, prefix);
    if is_x(a) { left } else { fixed }
}

// The fewest digits that are enough for an action: an X action takes at least one.
fn fewest(a: ConditioningAction, prefix: usize) -> usize
    ensures { result ≡ (if is_x (action_of a) then 1 else fixed_of prefix (action_of a)) }
{
    let fixed = fixed_of(a, prefix);
    if is_x(a) { 1 } else { fixed }
}

// Too few digits are left for an action.
fn meets_too_few(a: ConditioningAction, prefix: usize, left: usize) -> bool
    ensures { result ≡ meets_too_few prefix left (action_of a) }
{
    left < fewest(a, prefix)
}

// SHORT: some action meets too few of n digits.
pub fn is_short(cas: &[u8], prefix: usize, n: usize) -> bool
    ensures { result ≡ short prefix n (cas_of cas.now) }
{
    let mut left = n;
    for a in actions_in(cas) {
        if meets_too_few(a, prefix, left) {
            return true;
        }
        left -= width(a, prefix, left);
    }
    false
}

// The action takes the value v from the number; CCDEF takes none.
fn takes_value(a: ConditioningAction, v: u8) -> bool
    ensures { result ≡ takes_value v (action_of a) }
{
    if a.code == CCDEF {
        return false;
    }
    value_of(a.code) == v
}

// The stretch that the value v covers of n digits that are enough.
pub fn span_of(cas: &[u8], prefix: usize, n: usize, v: u8) -> Span
    requires { short prefix n (cas_of cas.now) ≡ false }
    ensures { Covers n (stretch_of v prefix n (cas_of cas.now)) result }
{
    let mut at = 0;
    let mut left = n;
    for a in actions_in(cas) {
        let w = width(a, prefix, left);
        if takes_value(a, v) {
            return Span {
                start: at,
                count: w,
            };
        }
        at += w;
        left -= w;
    }
    Span { start: 0, count: 0 }
}

// The stretch that the value v covers of n digits; empty where they are too few.
pub fn span_in(cas: &[u8], prefix: usize, n: usize, v: u8) -> Span
    ensures { Covers n (stretch_in v prefix n (cas_of cas.now)) result }
{
    if is_short(cas, prefix, n) {
        return Span { start: 0, count: 0 };
    }
    span_of(cas, prefix, n, v)
}

// The very stretch of the digits that the value v covers.
pub fn stretch_in<'a>(cas: &[u8], prefix: usize, digits: &'a [u8], v: u8) -> &'a [u8]
    ensures { result.now ≡ digits_at (stretch_in v prefix (length digits.now) (cas_of cas.now)) digits.now }
{
    let s = span_in(cas, prefix, digits.len(), v);
    let start = s.start;
    let end = start + s.count;
    &digits[start..end]
}

// MARKS: where the digits of every value lie, found in one walk

// The places of a table of marks: one for each formatting code, of which conditioning sets the first ten, and place 0 for actions that take no value.
pub const PLACES: usize = DELIMITER_B as usize + 1;

// Where the digits of every value lie: at its number, the place of the first of them, 0 for a value that is not marked, and how many they are.
#[derive(Clone, Copy)]
pub struct Marks {
    starts: [u8; PLACES],
    counts: [u8; PLACES],
}

impl Marks {
    // No value is marked.
    pub fn none() -> Marks
        ensures { result ≡ no_marks }
    {
        Marks {
            starts: [0u8; PLACES],
            counts: [0u8; PLACES],
        }
    }

    // Where the digits of the value v lie.
    pub fn span(&self, v: usize) -> Span
        requires { v < PLACES }
        ensures { result ≡ marked self.now v }
    {
        Span {
            start: usize::from(self.starts[v]),
            count: usize::from(self.counts[v]),
        }
    }

    // Says anew where they lie.
    pub fn put(&mut self, v: usize, span: Span)
        requires { (v < PLACES) × (span.start < 256) × (span.count < 256) }
        ensures { self.new ≡ marked_anew self.old v span }
    {
        self.starts[v] = span.start as u8;
        self.counts[v] = span.count as u8;
    }

    // Marks a value that is not marked yet.
    fn mark(&mut self, v: usize, span: Span)
        requires { (v < PLACES) × (span.start < 256) × (span.count < 256) }
        ensures { MarksOnce v span self.old self.new }
    {
        if self.starts[v] != 0 {
            return;
        }
        self.put(v, span);
    }
}

// The value whose digits each conditioning code takes, four bits for a code, the lowest for code 0: those that it sets, but none for CCDEF. A number and
// not an array, so that nothing is read from memory.
const VALUES_TAKEN: u64 = 0x06543a9875432100;

// The value whose digits an action takes; 0 for IGN, and for CCDEF, which takes none.
fn value_taken(a: ConditioningAction) -> usize
    ensures { Takes (action_of a) result }
{
    let code = a.code;
    if CCDEF < code {
        return 0;
    }
    (VALUES_TAKEN >> (4 * code)) as usize % 16
}

// Whether some action meets too few of n digits; where none does, marks where the digits of each value lie; else nothing is said of the table. The first
// digit has place `first`, which is not 0.
pub fn mark_spans(cas: &[u8], prefix: usize, n: usize, first: usize, marks: &mut Marks) -> bool
    requires { Markable n first marks.old }
    ensures { MarksUnlessShort prefix n first (cas_of cas.now) marks.new result }
{
    let mut taken = 0;
    let mut left = n;
    for a in actions_in(cas) {
        if meets_too_few(a, prefix, left) {
            return true;
        }
        let w = width(a, prefix, left);
        let span = Span {
            start: first + taken,
            count: w,
        };
        marks.mark(value_taken(a), span);
        taken += w;
        left -= w;
    }
    false
}
