// A set's content: its parts, its actions as they lie in them, RANGE, and the fit of a rule and a set.
#![tactic(auto)]

ghost use Rattle.std.specs.Prelude.{◌≡◌, ◌≤◌, length};
ghost use Rattle.meaning.specs.Sizes.{CONTENT-BYTES};
ghost use Rattle.meaning.specs.Basics.{any, count, is_empty, contains};
ghost use Rattle.meaning.specs.Settings.{is_outgoing_class};
ghost use Rattle.meaning.specs.Actions.{ca_bytes, sa_bytes, fa_bytes, is_x, value_of, cas_of, codes_of, actions_of, most_of, ca_in_range, cas_in_range, codes_in_range, content_in_range};
ghost use Rattle.meaning.specs.Groups.{is_set, fixed_of, fixed_sum, fpfx_meets_prefix, sum_fits, cas_fit};
ghost use Rattle.std.specs.Iterator.{YieldsFirst, YieldsFirstBy, item_count};
ghost use Rattle.actions.specs.Reading.{action_of, actions_left, codes_left, has_code};

use meaning::Outgoing;
use meaning::ca::{CCDEF, FPFX, IGN, LAST_COUNTED, SNX, ZNX};
use meaning::fa::DELIMITER_B;
use meaning::sa::CDIAL;
use meaning::sizes::{CA_AT, FA_AT, FA_END, OUTGOING_AT, SA_AT};

// THE PARTS

// The bytes of a set's conditioning actions.
pub fn cas_of(content: &[u8]) -> &[u8]
    requires { length content.now ≡ CONTENT-BYTES }
    ensures { result.now ≡ ca_bytes content.now }
{
    &content[CA_AT..SA_AT]
}

// The bytes of a set's service actions.
pub fn sas_of(content: &[u8]) -> &[u8]
    requires { length content.now ≡ CONTENT-BYTES }
    ensures { result.now ≡ sa_bytes content.now }
{
    &content[SA_AT..FA_AT]
}

// The bytes of a set's formatting actions.
pub fn fas_of(content: &[u8]) -> &[u8]
    requires { length content.now ≡ CONTENT-BYTES }
    ensures { result.now ≡ fa_bytes content.now }
{
    &content[FA_AT..FA_END]
}

// THE ACTIONS

// A conditioning action.
#[derive(Clone, Copy)]
pub struct ConditioningAction {
    pub code: u8,
    pub count: u8,
}

// The conditioning actions of a list's bytes in turn: pairs of a code and a count, up to the first code 0.
#[derive(Clone, Copy)]
pub struct ConditioningActions<'a>(&'a [u8]);

impl<'a> Iterator for ConditioningActions<'a> {
    type Item = ConditioningAction;

    ghost next_gives = { YieldsFirstBy action_of actions_left };

    ghost remaining = { item_count actions_left };

    fn next(&mut self) -> Option<ConditioningAction> {
        let [code, count, later @ ..] = self.0 else {
            return None;
        };
        if *code == 0 {
            return None;
        }
        self.0 = later;
        Some(ConditioningAction {
            code: *code,
            count: *count,
        })
    }
}

impl<'a> ConditioningActions<'a> {
    // The bytes of those that are left.
    pub fn as_slice(&self) -> &'a [u8]
        ensures { cas_of result.now ≡ actions_left self.now }
    {
        self.0
    }
}

pub fn actions_in(cas: &[u8]) -> ConditioningActions<'_>
    ensures { actions_left result ≡ cas_of cas.now }
{
    ConditioningActions(cas)
}

// The codes of a list's bytes in turn, up to the first 0.
#[derive(Clone, Copy)]
pub struct Codes<'a>(&'a [u8]);

impl<'a> Iterator for Codes<'a> {
    type Item = u8;

    ghost next_gives = { YieldsFirst codes_left };

    ghost remaining = { item_count codes_left };

    fn next(&mut self) -> Option<u8> {
        let [code, later @ ..] = self.0 else {
            return None;
        };
        if *code == 0 {
            return None;
        }
        self.0 = later;
        Some(*code)
    }
}

impl<'a> Codes<'a> {
    // The bytes of those that are left.
    pub fn as_slice(&self) -> &'a [u8]
        ensures { codes_of result.now ≡ codes_left self.now }
    {
        self.0
    }
}

pub fn codes_in(list: &[u8]) -> Codes<'_>
    ensures { codes_left result ≡ codes_of list.now }
{
    Codes(list)
}

pub fn no_conditioning(cas: &[u8]) -> bool
    ensures { result ≡ is_empty (cas_of cas.now) }
{
    actions_in(cas).next().is_none()
}

pub fn no_codes(list: &[u8]) -> bool
    ensures { result ≡ is_empty (codes_of list.now) }
{
    codes_in(list).next().is_none()
}

// The value that each conditioning code sets, by its formatting code; 0 for none.
const VALUES: [u8; 16] = [0, 0, 1, 2, 3, 4, 5, 7, 8, 9, 10, 3, 4, 5, 6, 1];

// The value that a conditioning code sets; 0 for none.
pub fn value_of(code: u8) -> u8
    ensures { result ≡ value_of code }
{
    let i = code as usize;
    if i < 16 { VALUES[i] } else { 0 }
}

// An X action: SNX, DNX, ZNX.
pub fn is_x(a: ConditioningAction) -> bool
    ensures { result ≡ is_x (action_of a) }
{
    SNX <= a.code && a.code <= ZNX
}

// Some conditioning action sets the value v.
pub fn is_set(cas: &[u8], v: u8) -> bool
    ensures { result ≡ is_set v (cas_of cas.now) }
{
    actions_in(cas).any(|a| value_of(a.code) == v)
}

// Some conditioning action has the code.
pub fn has_code(cas: &[u8], code: u8) -> bool
    ensures { result ≡ has_code code (cas_of cas.now) }
{
    actions_in(cas).any(|a| a.code == code)
}

// The code stands in a list of codes.
pub fn contains(list: &[u8], code: u8) -> bool
    ensures { result ≡ contains code (codes_of list.now) }
{
    codes_in(list).any(|c| code == c)
}

// How many X actions there are.
pub fn count_x(cas: &[u8]) -> usize
    ensures { result ≡ count is_x (cas_of cas.now) }
{
    actions_in(cas).filter(|a| is_x(*a)).count()
}

// The digits that an action takes for certain.
pub fn fixed_of(a: ConditioningAction, prefix: usize) -> usize
    ensures { result ≡ fixed_of prefix (action_of a) }
{
    if a.code <= LAST_COUNTED {
        return a.count as usize;
    }
    if a.code == FPFX { prefix } else { 0 }
}

// F: the sum of fixed counts and of the prefix length for FPFX.
pub fn fixed_sum(cas: &[u8], prefix: usize) -> usize
    requires { (length cas.now ≤ 24) × (prefix ≤ 16) }
    ensures { result ≡ fixed_sum prefix (cas_of cas.now) }
{
    actions_in(cas).map(|a| fixed_of(a, prefix)).sum()
}

pub fn has_x(cas: &[u8]) -> bool
    ensures { result ≡ any is_x (cas_of cas.now) }
{
    actions_in(cas).any(is_x)
}

// RANGE

// The largest count of a conditioning code.
fn most_of(code: u8) -> u8
    ensures { result ≡ most_of code }
{
    match code {
        IGN => 16,
        2 => 3,
        3 => 8,
        4..=6 => 15,
        7..=10 => 8,
        _ => 0,
    }
}

// A conditioning action's code and count.
#[tactic(auto, unfolding(meaning::specs::Actions::ca_in_range))]
pub fn ca_in_range(code: u8, count: u8) -> bool
    ensures { result ≡ ca_in_range code count }
{
    if code <= LAST_COUNTED {
        return 1 <= count && count <= most_of(code);
    }
    code <= CCDEF && count == 0
}

// A list of conditioning actions: pairs up to the first code 0, and nothing behind it.
pub fn cas_in_range(cas: &[u8]) -> bool
    ensures { result ≡ cas_in_range cas.now }
{
    let mut left = cas;
    while let [code, count, later @ ..] = left {
        if *code == 0 {
            return *count == 0 && buffer::all_zero(later);
        }
        if !ca_in_range(*code, *count) {
            return false;
        }
        left = later;
    }
    left.is_empty()
}

// A list of codes from 1 to `most` up to the first 0, and nothing behind it.
pub fn codes_in_range(list: &[u8], most: u8) -> bool
    ensures { result ≡ codes_in_range most list.now }
{
    let mut left = list;
    while let [code, later @ ..] = left {
        if *code == 0 {
            return buffer::all_zero(later);
        }
        if most < *code {
            return false;
        }
        left = later;
    }
    true
}

fn is_outgoing_class(b: u8) -> bool
    ensures { result ≡ is_outgoing_class b }
{
    Outgoing::try_from(b).is_ok()
}

// A set's content: outgoing class, conditioning, service and formatting actions.
#[tactic(auto, unfolding(meaning::specs::Actions::content_in_range))]
pub fn content_in_range(content: &[u8]) -> bool
    requires { length content.now ≡ CONTENT-BYTES }
    ensures { result ≡ content_in_range content.now }
{
    is_outgoing_class(content[OUTGOING_AT])
        && cas_in_range(cas_of(content))
        && codes_in_range(sas_of(content), CDIAL)
        && codes_in_range(fas_of(content), DELIMITER_B)
}

// THE FIT

// FPFX, where present, meets a prefix of at least one digit.
#[tactic(auto, unfolding(meaning::specs::Groups::fpfx_meets_prefix))]
fn fpfx_meets_prefix(cas: &[u8], prefix: usize) -> bool
    ensures { result ≡ fpfx_meets_prefix prefix (cas_of cas.now) }
{
    prefix != 0 || !has_code(cas, FPFX)
}

// F fits a stated length, or 0 for the wildcard, with or without an X action.
fn sum_fits(len: usize, x: bool, f: usize) -> bool
    ensures { result ≡ sum_fits len x f }
{
    if len == 0 {
        return x && f <= 31;
    }
    if x { f < len } else { f == len }
}

// A rule with a prefix and a length of so many digits fits a set's conditioning actions.
#[tactic(auto, unfolding(meaning::specs::Groups::cas_fit))]
pub fn cas_fit(cas: &[u8], prefix: usize, len: usize) -> bool
    requires { (length cas.now ≤ 24) × (prefix ≤ 16) }
    ensures { result ≡ cas_fit prefix len (cas_of cas.now) }
{
    no_conditioning(cas)
        || (fpfx_meets_prefix(cas, prefix) && sum_fits(len, has_x(cas), fixed_sum(cas, prefix)))
}

// The same, over a set's content.
pub fn fits_content(prefix: usize, len: usize, content: &[u8]) -> bool
    requires { (length content.now ≡ CONTENT-BYTES) × (prefix ≤ 16) }
    ensures { result ≡ cas_fit prefix len (actions_of content.now).cas }
{
    cas_fit(cas_of(content), prefix, len)
}
