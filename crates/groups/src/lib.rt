// The group rules of a set's actions.
#![tactic(auto)]

ghost use Rattle.std.specs.Prelude.{◌≡◌, ◌||◌, not, length};
ghost use Rattle.meaning.specs.Sizes.{CONTENT-BYTES};
ghost use Rattle.meaning.specs.Basics.{all_of, is_zero};
ghost use Rattle.meaning.specs.Actions.{value_of, cas_of, codes_of, actions_of};
ghost use Rattle.meaning.specs.Groups.{is_set, nothing_without_ca, one_format, format_stands, each_value_once, fpfx_first};
ghost use Rattle.meaning.specs.Groups.{one_x_action, only_ccdef_after_x, precedence, precedence_never_rises};
ghost use Rattle.meaning.specs.Groups.{no_service_repeats, is_backed, formatting_backed, groups_hold};

use actions::{
    actions_in, cas_of, codes_in, contains, count_x, fas_of, is_set, is_x, no_codes,
    no_conditioning, sas_of, value_of,
};
use meaning::ca::{CCDEF, FPFX};
use meaning::fa::{AC, ASD, CC, DN, GRN, LAST_CONDITIONED, SN, SP, ZN};
use meaning::sa::{ASDLKUP, CDIAL, CDPNNP, GRNLKUP, INPRTG};

// With no conditioning action there are no service and no formatting actions.
#[tactic(auto, unfolding(meaning::specs::Actions::actions_of, meaning::specs::Groups::nothing_without_ca))]
pub fn nothing_without_ca(content: &[u8]) -> bool
    requires { length content.now ≡ CONTENT-BYTES }
    ensures { result ≡ nothing_without_ca (actions_of content.now) }
{
    let sas = sas_of(content);
    let fas = fas_of(content);
    !no_conditioning(cas_of(content)) || (no_codes(sas) && no_codes(fas))
}

// ZN alone, CC and DN, or CC, AC and SN, of the five.
fn one_format(cc: bool, ac: bool, sn: bool, dn: bool, zn: bool) -> bool
    ensures { result ≡ one_format cc ac sn dn zn }
{
    (zn & !cc & !ac & !sn & !dn) | (cc & dn & !zn & !ac & !sn) | (cc & ac & sn & !zn & !dn)
}

// Exactly one international format stands, where there are conditioning actions.
#[tactic(auto, unfolding(meaning::specs::Groups::format_stands))]
pub fn format_stands(cas: &[u8]) -> bool
    ensures { result ≡ format_stands (cas_of cas.now) }
{
    no_conditioning(cas)
        || one_format(
            is_set(cas, CC),
            is_set(cas, AC),
            is_set(cas, SN),
            is_set(cas, DN),
            is_set(cas, ZN),
        )
}

// The code sets no value, or one that no later action sets.
fn not_set_again(code: u8, later: &[u8]) -> bool
    ensures { result ≡ (is_zero (value_of code) || not (is_set (value_of code) (cas_of later.now))) }
{
    let v = value_of(code);
    v == 0 || !is_set(later, v)
}

// Each value is set by at most one conditioning action.
pub fn each_value_once(cas: &[u8]) -> bool
    ensures { result ≡ each_value_once (cas_of cas.now) }
{
    let mut later = actions_in(cas);
    while let Some(a) = later.next() {
        if !not_set_again(a.code, later.as_slice()) {
            return false;
        }
    }
    true
}

// FPFX stands first.
pub fn fpfx_first(cas: &[u8]) -> bool
    ensures { result ≡ fpfx_first (cas_of cas.now) }
{
    !actions_in(cas).skip(1).any(|a| a.code == FPFX)
}

// At most one X action.
#[tactic(auto, unfolding(meaning::specs::Groups::one_x_action))]
pub fn one_x_action(cas: &[u8]) -> bool
    ensures { result ≡ one_x_action (cas_of cas.now) }
{
    count_x(cas) <= 1
}

// After an X action only CCDEF.
pub fn only_ccdef_after_x(cas: &[u8]) -> bool
    ensures { result ≡ only_ccdef_after_x (cas_of cas.now) }
{
    actions_in(cas)
        .skip_while(|a| !is_x(*a))
        .skip(1)
        .all(|a| a.code == CCDEF)
}

fn precedence(service: u8) -> u8
    ensures { result ≡ precedence service }
{
    match service {
        INPRTG => 95,
        CDPNNP => 80,
        ASDLKUP..=GRNLKUP => 50,
        CDIAL => 20,
        _ => 0,
    }
}

// Service precedence never rises along the list.
pub fn precedence_never_rises(sas: &[u8]) -> bool
    ensures { result ≡ precedence_never_rises (codes_of sas.now) }
{
    codes_in(sas)
        .map(precedence)
        .is_sorted_by(|before, p| p <= before)
}

// No service action repeats.
pub fn no_service_repeats(sas: &[u8]) -> bool
    ensures { result ≡ no_service_repeats (codes_of sas.now) }
{
    let mut later = codes_in(sas);
    while let Some(c) = later.next() {
        if contains(later.as_slice(), c) {
            return false;
        }
    }
    true
}

// The formatting action f has the conditioning or service action that it needs.
pub fn is_backed(content: &[u8], f: u8) -> bool
    requires { length content.now ≡ CONTENT-BYTES }
    ensures { result ≡ is_backed (actions_of content.now) f }
{
    if f <= LAST_CONDITIONED {
        return is_set(cas_of(content), f);
    }
    if f <= SP {
        return contains(sas_of(content), CDPNNP);
    }
    if f == ASD {
        return contains(sas_of(content), ASDLKUP);
    }
    if f == GRN {
        return contains(sas_of(content), GRNLKUP);
    }
    true
}

// Every formatting action has the action that it needs.
pub fn formatting_backed(content: &[u8]) -> bool
    requires { length content.now ≡ CONTENT-BYTES }
    ensures { result ≡ formatting_backed (actions_of content.now) }
{
    codes_in(fas_of(content)).all(|f| is_backed(content, f))
}

// The group rules of a set's content.
#[tactic(auto, unfolding(meaning::specs::Actions::actions_of, meaning::specs::Groups::groups_hold))]
pub fn groups_hold(content: &[u8]) -> bool
    requires { length content.now ≡ CONTENT-BYTES }
    ensures { result ≡ groups_hold (actions_of content.now) }
{
    let cas = cas_of(content);
    let sas = sas_of(content);
    nothing_without_ca(content)
        && format_stands(cas)
        && each_value_once(cas)
        && fpfx_first(cas)
        && one_x_action(cas)
        && only_ccdef_after_x(cas)
        && precedence_never_rises(sas)
        && no_service_repeats(sas)
        && formatting_backed(content)
}
