// The rule for a number among rule slots in listing order: halved to the slots of the number's class, then digit by digit to those whose prefix it begins with.
#![tactic(auto)]

ghost use Rattle.std.specs.Prelude.{◌≡◌, true, ◌≤◌};
ghost use Rattle.meaning.specs.Sizes.{CLASS-AT};
ghost use Rattle.meaning.specs.Rules.{chosen_place, rules_in_order};
ghost use Rattle.meaning.specs.Answers.{place_chosen};
ghost use Rattle.filter.specs.Slots.{RuleArea, rules_of};
ghost use Rattle.narrowing.specs.Columns.{Column, Start, Narrowed, length_weight};

use meaning::RulePlace;
use meaning::sizes::{CLASS_AT, LENGTH_AT, PREFIX_AT, PREFIX_DIGITS_AT, RULE_WIDTH};
use std::ops::Range;

// By halving: the first of some places whose byte in a column is not below d, where the column rises.
fn first_from(rules: &[u8], places: Range<usize>, column: usize, d: usize) -> usize
    requires { Column rules.now places.start places.end column }
    ensures { Start rules.now places.start places.end column d result }
{
    let mut left = places;
    while left.start < left.end {
        let mid = left.start + (left.end - left.start) / 2;
        if usize::from(rules[RULE_WIDTH * mid + column]) < d {
            left.start = mid + 1;
        } else {
            left.end = mid;
        }
    }
    left.start
}

// Those of some places whose byte in a column is d, where the column rises.
fn narrow(rules: &[u8], places: Range<usize>, column: usize, d: u8) -> Range<usize>
    requires { Column rules.now places.start places.end column }
    ensures { Narrowed rules.now places.start places.end column d result.start result.end }
{
    let Range { start, end } = places;
    let d = usize::from(d);
    let from = first_from(rules, start..end, column, d);
    let to = first_from(rules, from..end, column, d + 1);
    from..to
}

// What a rule weighs by its length, where its prefix is the first j digits of a number of n digits. With a test for each of the three the walk
// over rules of one prefix takes up to 1.4 times as long, by where in memory it comes to lie.
#[tactic(auto, using(crate::proofs::Prefixes::weight_wildcard, crate::proofs::Prefixes::weight_stated, crate::proofs::Prefixes::weight_other))]
fn weigh_length(len: u8, j: usize, n: usize) -> usize
    requires { j ≤ 16 }
    ensures { result ≡ length_weight j n len }
{
    if len != 0 && usize::from(len) != n {
        return 0;
    }
    2 * j + 1 + usize::from(len != 0)
}

// The same as `choose`, where the places of the number's class are known: from `from` to before `to`. Of `count` and `class` the promise alone
// speaks. The places left are those of that class whose prefix begins with the number's first j digits, but for those already weighed. By
// itself, since the program's loop has no registers left for it.
#[inline(never)]
pub fn choose_among(
    rules: &[u8],
    count: usize,
    class: u8,
    from: usize,
    to: usize,
    digits: &[u8],
) -> Option<RulePlace>
    requires rule_area { RuleArea count rules.now }
    requires rules_rise { rules_in_order (rules_of count rules.now) ≡ true }
    requires narrowed { Narrowed rules.now 0 count CLASS-AT class from to }
    ensures { place_chosen result ≡ chosen_place class digits.now (rules_of count rules.now) }
{
    let mut left = from..to;
    let mut best = None;
    let mut most: usize = 0;
    let mut j: usize = 0;
    while left.start < left.end {
        let first = RULE_WIDTH * left.start;
        if usize::from(rules[first + PREFIX_AT]) == j {
            let w = weigh_length(rules[first + LENGTH_AT], j, digits.len());
            if most < w {
                best = Some(RulePlace(left.start as u16));
                most = w;
            }
            left.start += 1;
        } else {
            let Some(&digit) = digits.get(j) else {
                return best;
            };
            left = narrow(rules, left, PREFIX_DIGITS_AT + j, digit);
            j += 1;
        }
    }
    best
}

// The rule for a number among the first `count` slots, which are in listing order.
pub fn choose(rules: &[u8], count: usize, class: u8, digits: &[u8]) -> Option<RulePlace>
    requires rule_area { RuleArea count rules.now }
    requires rules_rise { rules_in_order (rules_of count rules.now) ≡ true }
    ensures { place_chosen result ≡ chosen_place class digits.now (rules_of count rules.now) }
{
    let places = narrow(rules, 0..count, CLASS_AT, class);
    choose_among(rules, count, class, places.start, places.end, digits)
}
