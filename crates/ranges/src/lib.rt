// RANGE of an opening's rooms and settings, and of a number: its class, its digits and its lookup.
#![tactic(auto)]

ghost use Rattle.std.specs.Prelude.{◌≡◌, length};
ghost use Rattle.meaning.specs.Sizes.{ROOMS-BYTES, SETTINGS-BYTES, LOOKUP-BYTES, NUMBER-BYTES};
ghost use Rattle.meaning.specs.Basics.{all, within};
ghost use Rattle.std.specs.Prelude.{if◌then◌else◌};
ghost use Rattle.meaning.specs.Settings.{is_class, rooms_in_range, settings_in_range, entity_in_range, asd_or_grn_in_range, lookup_in_range, number_in_range, dialled_in_range};

use meaning::Class;
use meaning::sizes::{
    ACCEPTING_AT, ANSWERS_AT, ANSWERS_END, ASD_IN, CLASS_AT, COUNTRY_AT, DELIMITER_A_AT,
    DELIMITER_B_AT, DFLTRN_AT, DIALLED_AT, ENTITY_IN, GRN_IN, LOOKUP_AT, LOOKUP_BYTES, VALUE_BYTES,
};

// Whether the rooms of an opening are in range.
#[tactic(auto, using(crate::proofs::Answers::contains_is), unfolding(meaning::specs::Settings::rooms_in_range))]
pub fn rooms_in_range(rooms: &[u8]) -> bool
    requires { length rooms.now ≡ ROOMS-BYTES }
    ensures { result ≡ rooms_in_range rooms.now }
{
    let sets = buffer::word(rooms, 0);
    let rules = buffer::word(rooms, 2);
    (1..=1024).contains(&sets) && (1..=4096).contains(&rules)
}

// Whether each byte is an answer of the query.
fn answers_in_range(answers: &[u8]) -> bool
    ensures { result ≡ all (within 1 4) answers.now }
{
    answers.iter().all(|x| (1..=4).contains(x))
}

// Whether the settings of an opening are in range.
#[tactic(auto, unfolding(meaning::specs::Settings::settings_in_range))]
pub fn settings_in_range(settings: &[u8]) -> bool
    requires { length settings.now ≡ SETTINGS-BYTES }
    ensures { result ≡ settings_in_range settings.now }
{
    blocks::digits_in_range(&settings[COUNTRY_AT..DFLTRN_AT], 1, 3)
        && blocks::digits_in_range(&settings[DFLTRN_AT..DELIMITER_A_AT], 0, 15)
        && blocks::digits_in_range(&settings[DELIMITER_A_AT..DELIMITER_B_AT], 0, 5)
        && blocks::digits_in_range(&settings[DELIMITER_B_AT..ANSWERS_AT], 0, 5)
        && answers_in_range(&settings[ANSWERS_AT..ANSWERS_END])
        && settings[ACCEPTING_AT] <= 1
}

// Whether a byte is a class.
pub fn is_class(b: u8) -> bool
    ensures { result ≡ is_class b }
{
    Class::try_from(b).is_ok()
}

// Whether the entity of a lookup is in range for its kind.
#[tactic(auto, unfolding(meaning::specs::Settings::entity_in_range))]
fn entity_in_range(kind: u8, entity: &[u8]) -> bool
    ensures { result ≡ entity_in_range kind entity.now }
{
    let (fewest, most) = if 2 <= kind { (1, 15) } else { (0, 0) };
    blocks::digits_in_range(entity, fewest, most)
}

// Whether the ASD or the GRN of a lookup is in range for its kind.
#[tactic(auto, unfolding(meaning::specs::Settings::asd_or_grn_in_range))]
fn asd_or_grn_in_range(kind: u8, digits: &[u8]) -> bool
    ensures { result ≡ asd_or_grn_in_range kind digits.now }
{
    let most = if kind == 0 { 0 } else { 10 };
    blocks::digits_in_range(digits, 0, most)
}

// Whether a lookup is in range.
#[tactic(auto, unfolding(meaning::specs::Settings::lookup_in_range))]
fn lookup_in_range(lookup: &[u8]) -> bool
    requires { length lookup.now ≡ LOOKUP-BYTES }
    ensures { result ≡ lookup_in_range lookup.now }
{
    let kind = lookup[0];
    kind <= 3
        && entity_in_range(kind, &lookup[ENTITY_IN..ASD_IN])
        && asd_or_grn_in_range(kind, &lookup[ASD_IN..GRN_IN])
        && asd_or_grn_in_range(kind, &lookup[GRN_IN..LOOKUP_BYTES])
}

// Whether the body of a number is in range.
#[tactic(auto, unfolding(meaning::specs::Settings::number_in_range))]
pub fn number_in_range(body: &[u8]) -> bool
    requires { length body.now ≡ NUMBER-BYTES }
    ensures { result ≡ number_in_range body.now }
{
    is_class(body[CLASS_AT])
        && blocks::digits_in_range(&body[DIALLED_AT..LOOKUP_AT], 0, 32)
        && lookup_in_range(&body[LOOKUP_AT..VALUE_BYTES])
}

// Whether a class and digits that come as themselves are in range.
#[tactic(auto, unfolding(meaning::specs::Settings::dialled_in_range))]
pub fn dialled_in_range(class: u8, digits: &[u8]) -> bool
    ensures { result ≡ dialled_in_range class digits.now }
{
    is_class(class) && digits.len() <= 32 && buffer::all_digits(digits)
}
