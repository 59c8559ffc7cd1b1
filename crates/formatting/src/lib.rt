// Formatting: where the value of each formatting action lies, the outgoing digits, and the conditioned number.
#![tactic(auto)]

ghost use Rattle.std.specs.Prelude.{◌≡◌, [], ◌∷◌, ◌+◌, ◌≤◌, ◌<◌, length, take};
ghost use Rattle.meaning.specs.Sizes.{SETTINGS-BYTES};
ghost use Rattle.meaning.specs.Basics.{part, digits_of};
ghost use Rattle.meaning.specs.Settings.{settings_of, lookup_of};
ghost use Rattle.meaning.specs.Actions.{LAST-CONDITIONED, RN as RN-CODE, cas_of, codes_of};
ghost use Rattle.meaning.specs.Conditioning.{value_from};
ghost use Rattle.meaning.specs.Services.{join};
ghost use Rattle.services.specs.Stages.{rn_of, sp_of};
ghost use Rattle.formatting.specs.Sources.{SOURCE-BYTES, LAST-STRING, settings_in, lookup_in, digits_if, Formattable, Held, Lies};
ghost use Rattle.formatting.specs.Tables.{Table, value_at, Has, place_of, sent_at, conditioned_value, served_over, value_made};
ghost use Rattle.formatting.specs.Joins.{conditioned, conditioned_codes, outgoing_by, Conditionable, Writes, JoinsInto};

use actions::{codes_in, has_code, is_set};
use blocks::copy_sixteen;
use buffer::copy;
use conditioning::{Marks, stretch_in};
use meaning::Span;
use meaning::ca::CCDEF;
use meaning::fa::{AC, ASD, CC, DELIMITER_A, DELIMITER_B, DN, GRN, RN, SN, SP, ZN};
use meaning::sizes::{
    ASD_IN, COUNTRY_AT, COUNTRY_DIGITS_AT, DELIMITER_A_AT, DELIMITER_B_AT, DFLTRN_AT, ENTITY_IN,
    GRN_IN, LOOKUP_AT, SETTINGS_BYTES, VALUE_BYTES,
};
use services::Served;

// A SOURCE: of a number's body the bytes that values are taken from and, behind them, the settings

// The bytes of a source: behind the settings, room for a block that is taken whole.
const SOURCE_BYTES: usize = 144;

// Where a source has each string of the lookup, which stands as in a body; the settings, and each string of them.
const ENTITY: usize = LOOKUP_AT + ENTITY_IN;

const ASD_STRING: usize = LOOKUP_AT + ASD_IN;

const GRN_STRING: usize = LOOKUP_AT + GRN_IN;

const SETTINGS: usize = VALUE_BYTES;

const COUNTRY: usize = SETTINGS + COUNTRY_AT;

const DFLTRN: usize = SETTINGS + DFLTRN_AT;

const DELIMITER_A_STRING: usize = SETTINGS + DELIMITER_A_AT;

const DELIMITER_B_STRING: usize = SETTINGS + DELIMITER_B_AT;

// WHERE A VALUE LIES

// The digits of a digit string of so many places.
fn string_at(source: &[u8], at: usize, width: usize) -> Span
    requires { (at + width < length source.now) × (at ≤ LAST-STRING) × (width ≤ 32) }
    ensures { Lies (digits_of (part at (width + 1) source.now)) source.now result }
{
    let n = usize::from(source[at]);
    if width < n {
        return Span {
            start: at + 1,
            count: width,
        };
    }
    Span {
        start: at + 1,
        count: n,
    }
}

// The same where it is set, else none.
fn string_if(set: bool, source: &[u8], at: usize, width: usize) -> Span
    requires { (at + width < length source.now) × (at ≤ LAST-STRING) × (width ≤ 32) }
    ensures { Lies (digits_if set (part at (width + 1) source.now)) source.now result }
{
    if set {
        return string_at(source, at, width);
    }
    Span { start: 0, count: 0 }
}

// RN where CDPNNP was carried out: the entity for kind 2, DFLTRN for kind 3.
fn routing_number(source: &[u8], ported: bool) -> Span
    requires { length source.now ≡ SOURCE-BYTES }
    ensures { Lies (rn_of (settings_of (settings_in source.now)) (lookup_of (lookup_in source.now)) (RN-CODE ∷ []) ported) source.now result }
{
    let kind = source[LOOKUP_AT];
    if kind == 2 {
        return string_if(ported, source, ENTITY, 15);
    }
    if kind == 3 {
        return string_if(ported, source, DFLTRN, 15);
    }
    Span { start: 0, count: 0 }
}

// SP where CDPNNP was carried out: the entity for kind 3.
fn service_provider(source: &[u8], ported: bool) -> Span
    requires { length source.now ≡ SOURCE-BYTES }
    ensures { Lies (sp_of (lookup_of (lookup_in source.now)) ported) source.now result }
{
    if source[LOOKUP_AT] == 3 {
        return string_if(ported, source, ENTITY, 15);
    }
    Span { start: 0, count: 0 }
}

// The value of a formatting action behind those that conditioning sets.
fn service_value(source: &[u8], served: Served, f: u8) -> Span
    requires { (length source.now ≡ SOURCE-BYTES) × (LAST-CONDITIONED < f) }
    ensures { Lies (served_over (settings_in source.now) (lookup_in source.now) served (λ _. []) f) source.now result }
{
    match f {
        RN => routing_number(source, served.effect.ported),
        SP => service_provider(source, served.effect.ported),
        ASD => string_if(served.effect.asd, source, ASD_STRING, 10),
        GRN => string_if(served.effect.grn, source, GRN_STRING, 10),
        DELIMITER_A => string_at(source, DELIMITER_A_STRING, 5),
        DELIMITER_B => string_at(source, DELIMITER_B_STRING, 5),
        _ => Span { start: 0, count: 0 },
    }
}

// A TABLE of where the value of each formatting action lies. Conditioning has marked the values that it took of the number

// The place of CC in a table: its number.
const CC_PLACE: usize = CC as usize;

// Puts in the default country code where CCDEF sets CC to it.
fn place_country(source: &[u8], cas: &[u8], marks: &mut Marks)
    requires { Table source.now marks.old }
    ensures { Has (conditioned_value (settings_in source.now) source.now cas.now marks.old) source.now marks.new }
{
    if has_code(cas, CCDEF) {
        marks.put(CC_PLACE, string_at(source, COUNTRY, 3));
    }
}

// Puts in the values behind those that conditioning sets.
fn place_services(source: &[u8], served: Served, marks: &mut Marks)
    requires { Table source.now marks.old }
    ensures { Has (served_over (settings_in source.now) (lookup_in source.now) served (value_at source.now marks.old)) source.now marks.new }
{
    for f in RN..=DELIMITER_B {
        marks.put(usize::from(f), service_value(source, served, f));
    }
}

// Puts in every value that conditioning does not take of the number.
fn place_values(source: &[u8], cas: &[u8], served: Served, marks: &mut Marks)
    requires { Table source.now marks.old }
    ensures { Has (value_made (settings_in source.now) source.now cas.now marks.old served) source.now marks.new }
{
    place_country(source, cas, marks);
    place_services(source, served, marks);
}

// Where the value that a formatting action sends lies.
fn value_to_send(marks: &Marks, f: u8) -> Span
    ensures { result ≡ place_of marks.now f }
{
    if DELIMITER_B < f {
        return Span { start: 0, count: 0 };
    }
    marks.span(usize::from(f))
}

// JOINING

// One formatting step: the value at the front of what it is given of the outgoing buffer. Whole blocks are copied, so what is behind the value there is not kept.
fn put_value(source: &[u8], value: Span, out: &mut [u8])
    requires { Held source.now value × (32 ≤ length out.old) }
    ensures { take value.count out.new ≡ part value.start value.count source.now }
{
    let start = value.start;
    copy_sixteen(out, &source[start..]);
    if 16 < value.count {
        let second = start + 16;
        copy_sixteen(&mut out[16..], &source[second..]);
    }
}

// The values of the formatting actions by a table, each directly behind the one before, at the front of a buffer that has room for `most` digits and two blocks;
// one more than `most` where they have more.
fn join_placed(source: &[u8], marks: &Marks, fas: &[u8], most: usize, out: &mut [u8]) -> usize
    requires { Table source.now marks.now × (most ≤ 35) × (most + 32 ≤ length out.old) }
    ensures { JoinsInto (join (sent_at source.now marks.now) (codes_of fas.now)) most out.new result }
{
    let mut end: usize = 0;
    for f in codes_in(fas) {
        let value = value_to_send(marks, f);
        let count = value.count;
        if most < end + count {
            return most + 1;
        }
        put_value(source, value, &mut out[end..]);
        end += count;
    }
    end
}

// The same by a table that has what conditioning took of the number: CC by CCDEF, the values of the service actions and the delimiters are put in first.
fn join_values(
    source: &[u8],
    cas: &[u8],
    served: Served,
    fas: &[u8],
    marks: &mut Marks,
    most: usize,
    out: &mut [u8],
) -> usize
    requires { Table source.now marks.old × (most ≤ 35) × (most + 32 ≤ length out.old) }
    ensures { JoinsInto (outgoing_by (settings_in source.now) source.now cas.now marks.old served fas.now) most out.new result }
{
    place_values(source, cas, served, marks);
    join_placed(source, marks, fas, most, out)
}

// The outgoing digits of a number whose digits conditioning has marked: the values of the formatting actions, each directly behind the one before, at the front of a
// buffer that has room for `most` digits and two blocks; one more than `most` where they have more. The table is used up.
pub fn join_outgoing(
    settings: &[u8],
    body: &[u8],
    cas: &[u8],
    served: Served,
    fas: &[u8],
    marks: &mut Marks,
    most: usize,
    out: &mut [u8],
) -> usize
    requires { Formattable settings.now body.now marks.old × (most ≤ 35) × (most + 32 ≤ length out.old) }
    ensures { JoinsInto (outgoing_by settings.now body.now cas.now marks.old served fas.now) most out.new result }
{
    let mut source = [0u8; SOURCE_BYTES];
    copy(&mut source, &body[0..VALUE_BYTES]);
    copy(&mut source[SETTINGS..], &settings[0..SETTINGS_BYTES]);
    join_values(&source, cas, served, fas, marks, most, out)
}

// THE CONDITIONED NUMBER

// The values that the conditioned number joins, by the international format that stands.
#[tactic(auto, unfolding(crate::specs::Joins::conditioned_codes))]
fn conditioned_codes(cas: &[u8]) -> &'static [u8]
    ensures { result.now ≡ conditioned_codes (cas_of cas.now) }
{
    if is_set(cas, ZN) {
        return &[ZN];
    }
    if is_set(cas, DN) {
        return &[CC, DN];
    }
    &[CC, AC, SN]
}

// The default country code.
fn country_of(settings: &[u8]) -> &[u8]
    requires { length settings.now ≡ SETTINGS-BYTES }
    ensures { result.now ≡ (settings_of settings.now).country }
{
    let n = usize::from(settings[COUNTRY_AT]);
    let country = &settings[COUNTRY_DIGITS_AT..DFLTRN_AT];
    if n < country.len() {
        return &country[0..n];
    }
    country
}

// A value as conditioning sets it, as a part of what it is taken from: of the settings where it is CC by CCDEF, else of the number.
fn conditioned_part<'a>(
    settings: &'a [u8],
    digits: &'a [u8],
    cas: &[u8],
    prefix: usize,
    v: u8,
) -> &'a [u8]
    requires { Conditionable settings.now digits.now cas.now prefix }
    ensures { result.now ≡ value_from (settings_of settings.now).country prefix digits.now (cas_of cas.now) v }
{
    if has_code(cas, CCDEF) && v == CC {
        return country_of(settings);
    }
    stretch_in(cas, prefix, digits, v)
}

// The conditioned number at the front of the buffer, each value directly behind the one before; the bytes behind it stay. No lookup is asked for.
pub fn write_conditioned<'a>(
    settings: &'a [u8],
    digits: &'a [u8],
    cas: &[u8],
    prefix: usize,
    out: &mut [u8],
) -> usize
    requires { Conditionable settings.now digits.now cas.now prefix × (length (conditioned settings.now digits.now cas.now prefix) ≤ length out.old) }
    ensures { Writes (conditioned settings.now digits.now cas.now prefix) out.old out.new result }
{
    let mut end = 0;
    for v in conditioned_codes(cas) {
        let value = conditioned_part(settings, digits, cas, prefix, *v);
        copy(&mut out[end..], value);
        end += value.len();
    }
    end
}
