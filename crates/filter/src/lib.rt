// Filters as bytes: range and listing order; and the lookup of a filter among rule slots.
#![tactic(auto)]

ghost use Rattle.std.specs.Prelude.{◌≡◌, ◌+◌, ◌*◌, ◌≤◌, ◌<◌, length, take, drop};
ghost use Rattle.meaning.specs.Sizes.{FILTER-BYTES, RULE-WIDTH};
ghost use Rattle.meaning.specs.Basics.{begins_with};
ghost use Rattle.meaning.specs.Filters.{filter_of, filter_in_range, compare_prefixes, compare_lengths, compare_filters};
ghost use Rattle.meaning.specs.Answers.{ordering_of, set_of};
ghost use Rattle.filter.specs.Slots.{FilterBytes, RuleArea, rule_of, rules_of};
ghost use Rattle.filter.specs.Place.{filter_place, place_given};

use meaning::sizes::{CLASS_AT, LENGTH_AT, PREFIX_AT, PREFIX_DIGITS_AT, RULE_WIDTH, SET_AT};
use meaning::{Class, RulePlace, SetNumber};
use std::cmp::Ordering;

// Whether the bytes are a filter in range.
pub fn filter_in_range(code: &[u8]) -> bool
    requires { FILTER-BYTES ≤ length code.now }
    ensures { result ≡ filter_in_range (take FILTER-BYTES code.now) }
{
    let len = code[LENGTH_AT];
    Class::try_from(code[CLASS_AT]).is_ok()
        && blocks::digits_in_range(&code[PREFIX_AT..LENGTH_AT], 0, 16)
        && len <= 32
        && (len == 0 || code[PREFIX_AT] <= len)
}

// Whether the digits begin with the prefix.
pub fn begins_with(prefix: &[u8], digits: &[u8]) -> bool
    ensures { result ≡ begins_with prefix.now digits.now }
{
    digits.starts_with(prefix)
}

// The order of two prefixes as digits, the shorter first where one begins the other.
pub fn order_prefixes(a: &[u8], b: &[u8]) -> Ordering
    ensures { ordering_of result ≡ compare_prefixes a.now b.now }
{
    for (i, x) in a.iter().enumerate() {
        let Some(y) = b.get(i) else {
            return Ordering::Greater;
        };
        if x < y {
            return Ordering::Less;
        }
        if y < x {
            return Ordering::Greater;
        }
    }
    if a.len() < b.len() {
        return Ordering::Less;
    }
    Ordering::Equal
}

// The order of two filter lengths: stated lengths rising, the wildcard last.
pub fn order_lengths(l: u8, m: u8) -> Ordering
    ensures { ordering_of result ≡ compare_lengths l m }
{
    (l == 0, l).cmp(&(m == 0, m))
}

// The digits of a filter's prefix.
fn prefix_digits(code: &[u8]) -> &[u8]
    requires { FilterBytes code.now }
    ensures { result.now ≡ (filter_of code.now).prefix }
{
    let digits = usize::from(code[PREFIX_AT]);
    &code[PREFIX_DIGITS_AT..PREFIX_DIGITS_AT + digits]
}

// The listing order of two filters.
pub fn order_filters(a: &[u8], b: &[u8]) -> Ordering
    requires a_bytes { FilterBytes a.now }
    requires b_bytes { FilterBytes b.now }
    ensures { ordering_of result ≡ compare_filters (filter_of a.now) (filter_of b.now) }
{
    if a[CLASS_AT] != b[CLASS_AT] {
        return a[CLASS_AT].cmp(&b[CLASS_AT]);
    }
    match order_prefixes(prefix_digits(a), prefix_digits(b)) {
        Ordering::Equal => order_lengths(a[LENGTH_AT], b[LENGTH_AT]),
        decided => decided,
    }
}

// Where a filter stands among the first `count` slots, or where adding would put it. Within the program's loop it took twice as long as by itself.
#[inline(never)]
pub fn find(rules: &[u8], count: usize, code: &[u8]) -> Result<RulePlace, RulePlace>
    requires rule_area { RuleArea count rules.now }
    requires filter_bytes { FilterBytes code.now }
    ensures { place_given result ≡ filter_place (filter_of code.now) (rules_of count rules.now) }
{
    let (slots, _) = rules.as_chunks::<RULE_WIDTH>();
    for (i, slot) in slots[..count].iter().enumerate() {
        match order_filters(code, slot) {
            Ordering::Less => return Err(RulePlace(i as u16)),
            Ordering::Equal => return Ok(RulePlace(i as u16)),
            Ordering::Greater => {}
        }
    }
    Err(RulePlace(count as u16))
}

// The number of the set that the rule at a place names.
pub fn set_at(rules: &[u8], place: RulePlace) -> SetNumber
    requires { RULE-WIDTH * place.0 + RULE-WIDTH ≤ length rules.now }
    ensures { result ≡ set_of (rule_of (take RULE-WIDTH (drop (RULE-WIDTH * place.0) rules.now))).set }
{
    let n = buffer::word(rules, RULE_WIDTH * usize::from(place.0) + SET_AT);
    SetNumber(n as u16)
}
