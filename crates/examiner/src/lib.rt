// The examiner: whether a memory is a sound plan of this build. It looks at each slot once, and at each rule and the next.
#![tactic(auto)]

ghost use Rattle.std.specs.Prelude.{◌≡◌, ◌≤◌, List, map, length, MatchResult, T};
ghost use Rattle.meaning.specs.Sizes.{SETS-AT};
ghost use Rattle.meaning.specs.Basics.{all, is_zero};
ghost use Rattle.filter.specs.Slots.{FilterBytes, prefix_fits, rule_of};
ghost use Rattle.plan.specs.Layout.{set_room, rule_room, rule_count};
ghost use Rattle.plan.specs.State.{sound_of};
ghost use Rattle.examiner.specs.Examined.{fixed_pass, opening_passes, sizes_pass, header_passes, slot_test, set_fits, rule_test};
ghost use Rattle.examiner.specs.Examined.{rising, areas_pass, body_pass, Sized};
ghost use Rattle.examiner.specs.Promises.{GivesPlan};

use meaning::Refusal;
use meaning::sizes::{
    CONTENT_AT, COUNT_AT, LENGTH_AT, PREFIX_AT, ROOMS_AT, ROOMS_END, RULE_BODY, RULE_WIDTH,
    RULES_AT, SET_AT, SET_WIDTH, SETS_AT, SETTINGS_AT, SETTINGS_END,
};
use plan::{MARK, SoundPlan};

// The unused bytes behind the count of rules.
const UNUSED_AT: usize = RULES_AT + 2;

// Whether the memory has the mark, and 0 in all unused bytes before the sets.
#[tactic(auto, unfolding(crate::specs::Examined::fixed_pass))]
fn fixed_pass(memory: &[u8]) -> bool
    requires { SETS-AT ≤ length memory.now }
    ensures { result ≡ fixed_pass memory.now }
{
    filter::begins_with(&MARK, memory)
        && buffer::all_zero(&memory[UNUSED_AT..ROOMS_AT])
        && buffer::all_zero(&memory[SETTINGS_END..SETS_AT])
}

// Whether the rooms and settings in the header are in range.
#[tactic(auto, unfolding(crate::specs::Examined::opening_passes))]
fn opening_passes(memory: &[u8]) -> bool
    requires { SETS-AT ≤ length memory.now }
    ensures { result ≡ opening_passes memory.now }
{
    ranges::rooms_in_range(&memory[ROOMS_AT..ROOMS_END])
        && ranges::settings_in_range(&memory[SETTINGS_AT..SETTINGS_END])
}

// Whether the rules have room, and the memory has the size that the rooms need.
#[tactic(auto, unfolding(crate::specs::Examined::sizes_pass, meaning::specs::Settings::rooms_of, meaning::specs::Settings::bytes_needed))]
fn sizes_pass(memory: &[u8]) -> bool
    requires { SETS-AT ≤ length memory.now }
    ensures { result ≡ sizes_pass memory.now }
{
    let rooms = &memory[ROOMS_AT..ROOMS_END];
    let sets = buffer::word(rooms, 0);
    let rules = buffer::word(rooms, 2);
    buffer::word(memory, RULES_AT) <= rules
        && SETS_AT + SET_WIDTH * sets + RULE_WIDTH * rules <= memory.len()
}

// Whether the memory begins with a header of this build, and has the size that it says.
#[tactic(auto, unfolding(crate::specs::Examined::header_passes))]
fn header_passes(memory: &[u8]) -> bool
    ensures { result ≡ header_passes memory.now }
{
    SETS_AT <= memory.len() && fixed_pass(memory) && opening_passes(memory) && sizes_pass(memory)
}

// Whether a part that holds nothing is 0, by eights: much room may be free.
pub fn is_free(part: &[u8]) -> bool
    ensures { result ≡ all is_zero part.now }
{
    let (eights, rest) = part.as_chunks::<8>();
    eights.iter().all(|&b| u64::from_le_bytes(b) == 0) && buffer::all_zero(rest)
}

// Whether a set slot is all 0, or held with a content that passes and nothing behind it.
#[tactic(auto, unfolding(crate::specs::Examined::slot_test))]
fn slot_passes(slot: &[u8; SET_WIDTH]) -> bool
    ensures { result ≡ slot_test slot.now }
{
    if slot[0] == 0 {
        return is_free(slot);
    }
    let content = &slot[CONTENT_AT..COUNT_AT];
    slot[0] == 1
        && actions::content_in_range(content)
        && groups::groups_hold(content)
        && buffer::all_zero(&slot[COUNT_AT..])
}

// Whether each set slot passes.
fn slots_pass(sets: &[[u8; SET_WIDTH]]) -> bool
    ensures { result ≡ all slot_test sets.now }
{
    sets.iter().all(slot_passes)
}

// Whether the set that a rule names is held and fits the rule's filter.
fn fits_held(rule: &[u8; RULE_WIDTH], sets: &[[u8; SET_WIDTH]]) -> bool
    requires { FilterBytes rule.now }
    ensures { result ≡ set_fits sets.now (rule_of rule.now) }
{
    let n = buffer::word(rule, SET_AT);
    let Some(set) = sets.get(n) else {
        return false;
    };
    let prefix = usize::from(rule[PREFIX_AT]);
    let len = usize::from(rule[LENGTH_AT]);
    set[0] != 0 && actions::fits_content(prefix, len, &set[CONTENT_AT..COUNT_AT])
}

// Whether a rule has a filter in range, nothing behind its set number, and a set that is held and fits it.
#[tactic(auto, unfolding(crate::specs::Examined::rule_test, filter::specs::Slots::rule_of), using(filter::proofs::FilterLaws::range_bytes))]
fn rule_passes(rule: &[u8; RULE_WIDTH], sets: &[[u8; SET_WIDTH]]) -> bool
    ensures { result ≡ rule_test sets.now rule.now }
{
    filter::filter_in_range(rule) && buffer::all_zero(&rule[RULE_BODY..]) && fits_held(rule, sets)
}

// Whether each rule passes.
fn rules_pass(rules: &[[u8; RULE_WIDTH]], sets: &[[u8; SET_WIDTH]]) -> bool
    ensures { result ≡ all (rule_test sets.now) rules.now }
{
    rules.iter().all(|rule| rule_passes(rule, sets))
}

// Whether each rule stands before the next in listing order.
pub fn rules_rise(rules: &[[u8; RULE_WIDTH]]) -> bool
    requires { T (all prefix_fits rules.now) }
    ensures { result ≡ rising (map rule_of rules.now) }
{
    for i in 1..rules.len() {
        if filter::order_filters(&rules[i - 1], &rules[i]).is_ge() {
            return false;
        }
    }
    true
}

// Whether the slots are those of a sound plan, and the rule slots that are free are 0.
#[tactic(auto, unfolding(crate::specs::Examined::areas_pass), using(crate::proofs::RuleSlots::prefixes_fit))]
fn areas_pass(sets: &[[u8; SET_WIDTH]], rules: &[[u8; RULE_WIDTH]], free: &[u8]) -> bool
    ensures { result ≡ areas_pass sets.now rules.now free.now }
{
    slots_pass(sets) && rules_pass(rules, sets) && rules_rise(rules) && is_free(free)
}

// Whether what stands behind the header is the slots of a sound plan.
#[tactic(auto, unfolding(meaning::specs::Settings::rooms_of))]
fn body_passes(memory: &[u8]) -> bool
    requires { Sized (set_room memory.now) (rule_room memory.now) (rule_count memory.now) memory.now }
    ensures { result ≡ body_pass memory.now }
{
    let rooms = &memory[ROOMS_AT..ROOMS_END];
    let sets_end = SETS_AT + SET_WIDTH * buffer::word(rooms, 0);
    let held_end = sets_end + RULE_WIDTH * buffer::word(memory, RULES_AT);
    let rules_end = sets_end + RULE_WIDTH * buffer::word(rooms, 2);
    let (sets, _) = memory[SETS_AT..sets_end].as_chunks::<SET_WIDTH>();
    let (held, _) = memory[sets_end..held_end].as_chunks::<RULE_WIDTH>();
    areas_pass(sets, held, &memory[held_end..rules_end])
}

// Whether the memory is a sound plan of this build.
pub fn sound(memory: &[u8]) -> bool
    ensures { result ≡ sound_of memory.now }
{
    header_passes(memory) && body_passes(memory)
}

// The plan that a memory holds, where it is sound.
pub fn examine(memory: &[u8]) -> Result<SoundPlan<'_>, Refusal>
    ensures { GivesPlan memory.now result }
{
    if !sound(memory) {
        return Err(Refusal::Plan);
    }
    Ok(SoundPlan { memory })
}
