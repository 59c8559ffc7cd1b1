// C-20: two plans side by side, for any two memories and any lent buffer.
#![tactic(auto)]

ghost use Rattle.std.specs.Prelude.{◌≡◌, ◌∷◌, [], ◌≤◌, length, take, MatchOption};
ghost use Rattle.std.proofs.Math.Option.{some};
ghost use Rattle.meaning.specs.Sizes.{FILTER-BYTES, DIFFERENCE-BYTES};
ghost use Rattle.meaning.specs.Basics.{written_over};
ghost use Rattle.meaning.specs.Compare.{entry, comparison};
ghost use Rattle.plan.specs.Layout.{plan_of};
ghost use Rattle.buffer.specs.Slots.{flat};
ghost use Rattle.compare.specs.Steps.{ENDED, kind_at, same_content_at, entries_from, takes_left, takes_right, lists, CountsEntries, PutsEntries};
ghost use Rattle.compare.specs.Standings.{number_of, listed_of, StandsAt};
ghost use Rattle.compare.specs.Promises.{GivesComparison, ComparePromise};

use meaning::sizes::{
    DIFFERENCE_BYTES, DIFFERENCE_FILTER_AT, FILTER_BYTES, LEFT_SET_AT, RIGHT_SET_AT,
};
use meaning::{Refusal, RulePlace, SetNumber};
use plan::{HeldRule, SoundPlan};
use std::cmp::Ordering;

// The kinds of an entry.
const LEFT_ONLY: u8 = 1;

const RIGHT_ONLY: u8 = 2;

const IN_BOTH: u8 = 3;

// In the place of a set: "65,535 for none".
const NO_SET: u16 = 65535;

// WHAT STANDS AT TWO PLACES

// What stands at a place of each: a filter of one plan alone, one that both hold with sets that differ, or rules that are alike.
#[derive(Clone, Copy)]
enum Standing<'a> {
    LeftOnly(HeldRule<'a>),
    RightOnly(HeldRule<'a>),
    InBoth(HeldRule<'a>, HeldRule<'a>),
    Alike,
}

// Whether the sets that two rules name have the same content, whatever their numbers.
fn same_sets(left: HeldRule, right: HeldRule) -> bool
    ensures { result ≡ same_content_at (plan_of left.entry.plan.memory.now) (plan_of right.entry.plan.memory.now) left.entry.place.0 right.entry.place.0 }
{
    left.content() == right.content()
}

// What two rules are to each other.
fn side_by_side<'a>(left: HeldRule<'a>, right: HeldRule<'a>) -> Standing<'a>
    ensures { StandsAt left.entry.plan.memory.now right.entry.plan.memory.now left.entry.place.0 right.entry.place.0 result }
{
    match filter::order_filters(left.slot(), right.slot()) {
        Ordering::Less => Standing::LeftOnly(left),
        Ordering::Greater => Standing::RightOnly(right),
        Ordering::Equal if same_sets(left, right) => Standing::Alike,
        Ordering::Equal => Standing::InBoth(left, right),
    }
}

// What stands at two places, where not both lists have ended.
fn stands_at<'a>(
    left: SoundPlan<'a>,
    i: RulePlace,
    right: SoundPlan<'a>,
    j: RulePlace,
) -> Option<Standing<'a>>
    ensures { MatchOption result (ENDED ≡ kind_at (plan_of left.entry.memory.now) (plan_of right.entry.memory.now) i.0 j.0) (StandsAt left.entry.memory.now right.entry.memory.now i.0 j.0) }
{
    match (left.rule(i), right.rule(j)) {
        (None, None) => None,
        (Some(l), None) => Some(Standing::LeftOnly(l)),
        (None, Some(r)) => Some(Standing::RightOnly(r)),
        (Some(l), Some(r)) => Some(side_by_side(l, r)),
    }
}

impl Standing<'_> {
    // How far it goes on the left.
    #[tactic(auto, unfolding(crate::specs::Steps::one_unless))]
    fn takes_left(self) -> u16
        ensures { result ≡ takes_left (number_of self.entry) }
    {
        match self {
            Standing::RightOnly(_) => 0,
            _ => 1,
        }
    }

    // How far it goes on the right.
    #[tactic(auto, unfolding(crate::specs::Steps::one_unless))]
    fn takes_right(self) -> u16
        ensures { result ≡ takes_right (number_of self.entry) }
    {
        match self {
            Standing::LeftOnly(_) => 0,
            _ => 1,
        }
    }

    // How many entries it lists.
    #[tactic(auto, unfolding(crate::specs::Steps::one_unless))]
    fn lists(self) -> u16
        ensures { result ≡ lists (number_of self.entry) }
    {
        match self {
            Standing::Alike => 0,
            _ => 1,
        }
    }
}

// How many differences there are.
fn count_differences(left: SoundPlan, right: SoundPlan) -> usize
    ensures { CountsEntries (plan_of left.entry.memory.now) (plan_of right.entry.memory.now) result }
{
    let mut i: u16 = 0;
    let mut j: u16 = 0;
    let mut n: u16 = 0;
    while let Some(standing) = stands_at(left, RulePlace(i), right, RulePlace(j)) {
        i += standing.takes_left();
        j += standing.takes_right();
        n += standing.lists();
    }
    n as usize
}

// ENTRIES

// The entry of a kind, the filter that some bytes begin with, and two sets.
fn fill_entry(out: &mut [u8], kind: u8, code: &[u8], left: SetNumber, right: SetNumber)
    requires { (length out.old ≡ DIFFERENCE-BYTES) × (FILTER-BYTES ≤ length code.now) }
    ensures { out.new ≡ entry kind (take FILTER-BYTES code.now) left.0 right.0 }
{
    buffer::copy(
        &mut out[DIFFERENCE_FILTER_AT..LEFT_SET_AT],
        &code[0..FILTER_BYTES],
    );
    buffer::put_word(out, LEFT_SET_AT, left.0 as usize);
    buffer::put_word(out, RIGHT_SET_AT, right.0 as usize);
    out[0] = kind;
}

// The same at the front of a buffer; how many bytes.
fn put_entry(out: &mut [u8], kind: u8, code: &[u8], left: SetNumber, right: SetNumber) -> usize
    requires { (DIFFERENCE-BYTES ≤ length out.old) × (FILTER-BYTES ≤ length code.now) }
    ensures { PutsEntries (entry kind (take FILTER-BYTES code.now) left.0 right.0 ∷ []) out.old out.new result }
{
    fill_entry(&mut out[0..DIFFERENCE_BYTES], kind, code, left, right);
    DIFFERENCE_BYTES
}

// The entry of what stands at two places at the front of a buffer, where there is one; how many bytes.
fn put_difference(out: &mut [u8], standing: Standing) -> usize
    requires { length (flat (listed_of standing)) ≤ length out.old }
    ensures { PutsEntries (listed_of standing.entry) out.old out.new result }
{
    let none = SetNumber(NO_SET);
    match standing {
        Standing::LeftOnly(l) => put_entry(out, LEFT_ONLY, l.slot(), l.set(), none),
        Standing::RightOnly(r) => put_entry(out, RIGHT_ONLY, r.slot(), none, r.set()),
        Standing::InBoth(l, r) => put_entry(out, IN_BOTH, l.slot(), l.set(), r.set()),
        Standing::Alike => 0,
    }
}

// All entries, one behind the other, over the front of a buffer.
fn write_differences(out: &mut [u8], left: SoundPlan, right: SoundPlan)
    requires { length (flat (entries_from (plan_of left.memory.now) (plan_of right.memory.now) 0 0)) ≤ length out.old }
    ensures { out.new ≡ written_over (flat (entries_from (plan_of left.entry.memory.now) (plan_of right.entry.memory.now) 0 0)) out.old }
{
    let mut i: u16 = 0;
    let mut j: u16 = 0;
    let mut end: usize = 0;
    while let Some(standing) = stands_at(left, RulePlace(i), right, RulePlace(j)) {
        end += put_difference(&mut out[end..], standing);
        i += standing.takes_left();
        j += standing.takes_right();
    }
}

// THE CALL

// Over plans that are known to be sound.
fn compare_known(left: SoundPlan, right: SoundPlan, out: &mut [u8]) -> Result<usize, Refusal>
    ensures { GivesComparison (comparison (some (plan_of left.entry.memory.now)) (some (plan_of right.entry.memory.now)) (length out.old)) out.old out.new result }
{
    let n = count_differences(left, right);
    if out.len() < DIFFERENCE_BYTES * n {
        return Err(Refusal::Room);
    }
    write_differences(out, left, right);
    Ok(n)
}

// What differs between two plans, as entries in listing order; both may be one memory.
pub fn compare(left: &[u8], right: &[u8], out: &mut [u8]) -> Result<usize, Refusal>
    ensures { ComparePromise left.now right.now out.old out.new result }
{
    let left = examiner::examine(left)?;
    let right = examiner::examine(right)?;
    compare_known(left, right, out)
}
