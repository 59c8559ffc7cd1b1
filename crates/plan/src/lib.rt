// The plan memory: readers in the plan's own words, and the edits, over a sound plan.
#![tactic(auto)]

ghost use Rattle.std.specs.Prelude.{◌≡◌, true, MatchOption, ◌++◌, ◌+◌, ◌*◌, ◌≤◌, ◌<◌, length, take, drop, get_or};
ghost use Rattle.std.proofs.Math.Option.{none, some};
ghost use Rattle.meaning.specs.Sizes.{ROOMS-BYTES, SETTINGS-BYTES, CONTENT-BYTES, FILTER-BYTES, HEADER-BYTES, SETS-AT, SET-WIDTH, RULE-WIDTH};
ghost use Rattle.meaning.specs.Basics.{is_some, count, word};
ghost use Rattle.meaning.specs.Settings.{rooms_of, bytes_needed};
ghost use Rattle.meaning.specs.Rules.{names};
ghost use Rattle.meaning.specs.Plan.{held, referrers, fresh, with_slot, with_rules};
ghost use Rattle.meaning.specs.Reads.{over_room};
ghost use Rattle.meaning.specs.History.{no_rule};
ghost use Rattle.meaning.specs.Answers.{set_of};
ghost use Rattle.buffer.specs.Slots.{insert_at, remove_at};
ghost use Rattle.filter.specs.Slots.{rules_of, RuleArea};
ghost use Rattle.plan.specs.Layout.{header_image, slot_image, rule_image, image, set_room, rule_room, rule_count, plan_of};
ghost use Rattle.plan.specs.State.{sound_of, rest_of};
ghost use Rattle.plan.specs.Readings.{Number, RulesStart, RulesPart, Content, RuleSlot, Prefix, NamedContent, rule_placed};
ghost use Rattle.plan.specs.Edits.{rule_with, renamed_at};

use meaning::sizes::{
    CONTENT_AT, COUNT_AT, PREFIX_AT, ROOMS_AT, ROOMS_END, RULE_WIDTH, RULES_AT, SET_AT, SET_WIDTH,
    SETS_AT, SETTINGS_AT, SETTINGS_END,
};
use meaning::{RulePlace, SetNumber};

// The mark of this build, `NPP2`.
pub const MARK: [u8; 4] = [78, 80, 80, 50];

// The place of the second of the two rooms.
const RULE_ROOM_AT: usize = ROOMS_AT + 2;

// A memory that holds a sound plan.
#[derive(Clone, Copy)]
pub struct SoundPlan<'a> {
    pub memory: &'a [u8],
    ghost sound: { sound_of memory.now ≡ true },
}

// READERS: of a header, whether the memory behind it is sound or not

// The room for sets.
pub fn set_room(memory: &[u8]) -> usize
    requires { HEADER-BYTES ≤ length memory.now }
    ensures { Number (set_room memory.now) result }
{
    buffer::word(memory, ROOMS_AT)
}

// The room for rules.
pub fn rule_room(memory: &[u8]) -> usize
    requires { HEADER-BYTES ≤ length memory.now }
    ensures { Number (rule_room memory.now) result }
{
    buffer::word(memory, RULE_ROOM_AT)
}

// The count of rules held.
pub fn rule_count(memory: &[u8]) -> usize
    requires { HEADER-BYTES ≤ length memory.now }
    ensures { Number (rule_count memory.now) result }
{
    buffer::word(memory, RULES_AT)
}

// The settings of the opening.
pub fn settings(memory: &[u8]) -> &[u8]
    requires { HEADER-BYTES ≤ length memory.now }
    ensures { result.now ≡ (plan_of memory.now).settings }
{
    &memory[SETTINGS_AT..SETTINGS_END]
}

// Whether a set number is at or over the room.
pub fn is_over_room(memory: &[u8], set: SetNumber) -> bool
    requires { HEADER-BYTES ≤ length memory.now }
    ensures { result ≡ over_room (plan_of memory.now) set.0 }
{
    set_room(memory) <= set.0 as usize
}

// READERS OF A SOUND PLAN

// The set number at a place of some bytes.
pub fn set_number(bytes: &[u8], at: usize) -> SetNumber
    requires { at + 1 < length bytes.now }
    ensures { result ≡ set_of (word bytes.now at) }
{
    SetNumber(buffer::word(bytes, at) as u16)
}

// Where the slot of a set number begins.
fn set_start(set: SetNumber) -> usize
    ensures { result ≡ SETS-AT + SET-WIDTH * set.0 }
{
    SETS_AT + SET_WIDTH * (set.0 as usize)
}

// How many of the first `held` rules of an area name a set.
fn naming(area: &[u8], held: usize, set: SetNumber) -> usize
    requires { RuleArea held area.now }
    ensures { result ≡ count (names set.0) (rules_of held area.now) }
{
    let mut n: usize = 0;
    for i in 0..held {
        let named = filter::set_at(area, RulePlace(i as u16));
        if named.0 == set.0 {
            n += 1;
        }
    }
    n
}

impl<'a> SoundPlan<'a> {
    // The room for sets.
    pub fn set_room(self) -> usize
        ensures { Number (set_room self.entry.memory.now) result }
    {
        set_room(self.memory)
    }

    // The room for rules.
    pub fn rule_room(self) -> usize
        ensures { Number (rule_room self.entry.memory.now) result }
    {
        rule_room(self.memory)
    }

    // The count of rules held.
    pub fn rule_count(self) -> usize
        ensures { Number (rule_count self.entry.memory.now) result }
    {
        rule_count(self.memory)
    }

    // The settings of the opening.
    pub fn settings(self) -> &'a [u8]
        ensures { result.now ≡ (plan_of self.entry.memory.now).settings }
    {
        settings(self.memory)
    }

    // Where the rule slots begin.
    fn rules_start(self) -> usize
        ensures { RulesStart self.entry.memory.now result }
    {
        SETS_AT + SET_WIDTH * self.set_room()
    }

    // The rule slots, free ones too.
    pub fn rules(self) -> &'a [u8]
        ensures { RulesPart self.entry.memory.now result.now }
    {
        let a = self.rules_start();
        let e = a + RULE_WIDTH * self.rule_room();
        &self.memory[a..e]
    }

    // Whether a set number is at or over the room.
    pub fn is_over_room(self, set: SetNumber) -> bool
        ensures { result ≡ over_room (plan_of self.entry.memory.now) set.0 }
    {
        is_over_room(self.memory, set)
    }

    // Whether a set is held; a number over the room for sets never is.
    pub fn is_held(self, set: SetNumber) -> bool
        ensures { result ≡ is_some (held (plan_of self.entry.memory.now) set.0) }
    {
        if self.is_over_room(set) {
            return false;
        }
        let at = set_start(set);
        self.memory[at] != 0
    }

    // The content of a set that is held.
    pub fn content(self, set: SetNumber) -> &'a [u8]
        requires { is_some (held (plan_of self.memory.now) set.0) ≡ true }
        ensures { Content (plan_of self.entry.memory.now) set.0 result.now }
    {
        let slot = set_start(set);
        let a = slot + CONTENT_AT;
        let e = slot + COUNT_AT;
        &self.memory[a..e]
    }

    // The rule at a place of the listing, if it is there.
    pub fn rule(self, place: RulePlace) -> Option<HeldRule<'a>>
        ensures { MatchOption result (rule_count self.entry.memory.now ≤ place.0) (λ r. (r.plan.memory.now ≡ self.entry.memory.now) × (r.place ≡ place)) }
    {
        if self.rule_count() <= place.0 as usize {
            return None;
        }
        Some(HeldRule { plan: self, place })
    }

    // The count of rules naming a set.
    pub fn referrers(self, set: SetNumber) -> usize
        ensures { result ≡ referrers (plan_of self.entry.memory.now) set.0 }
    {
        naming(self.rules(), self.rule_count(), set)
    }
}

// A rule of a sound plan, by its place in the listing.
#[derive(Clone, Copy)]
pub struct HeldRule<'a> {
    pub plan: SoundPlan<'a>,
    pub place: RulePlace,
    ghost held: { place.0 < rule_count plan.memory.now },
}

impl<'a> HeldRule<'a> {
    // The set that it names.
    pub fn set(self) -> SetNumber
        ensures { result ≡ set_of (rule_placed self.entry.plan.memory.now self.entry.place.0).set }
    {
        filter::set_at(self.plan.rules(), self.place)
    }

    // Its slot, which begins with its filter.
    pub fn slot(self) -> &'a [u8]
        ensures slot { RuleSlot (rule_placed self.entry.plan.memory.now self.entry.place.0) result.now }
        ensures code { take FILTER-BYTES result.now ≡ (rule_placed self.entry.plan.memory.now self.entry.place.0).code }
    {
        let area = self.plan.rules();
        let k = self.place.0 as usize;
        let a = RULE_WIDTH * k;
        let e = a + RULE_WIDTH;
        &area[a..e]
    }

    // How many digits its prefix has.
    pub fn prefix(self) -> usize
        ensures { Prefix (rule_placed self.entry.plan.memory.now self.entry.place.0) result }
    {
        usize::from(self.slot()[PREFIX_AT])
    }

    // The content of the set that it names.
    pub fn content(self) -> &'a [u8]
        ensures { NamedContent (plan_of self.entry.plan.memory.now) (rule_placed self.entry.plan.memory.now self.entry.place.0) result.now }
    {
        self.plan.content(self.set())
    }
}

// EDITS

// The header of a fresh plan.
fn write_header(header: &mut [u8], rooms: &[u8], settings: &[u8])
    requires { (length header.old ≡ SETS-AT) × (length rooms.now ≡ ROOMS-BYTES) × (length settings.now ≡ SETTINGS-BYTES) }
    ensures { header.new ≡ header_image (fresh rooms.now settings.now) }
{
    buffer::clear(header);
    buffer::copy(header, &MARK);
    buffer::copy(&mut header[ROOMS_AT..ROOMS_END], rooms);
    buffer::copy(&mut header[SETTINGS_AT..SETTINGS_END], settings);
}

// The slot of a set that is held.
fn write_set(slot: &mut [u8], content: &[u8])
    requires { (length slot.old ≡ SET-WIDTH) × (length content.now ≡ CONTENT-BYTES) }
    ensures { slot.new ≡ slot_image 0 (some content.now) }
{
    buffer::clear(slot);
    buffer::copy(&mut slot[CONTENT_AT..COUNT_AT], content);
    slot[0] = 1;
}

// The slot of a rule.
fn write_rule(slot: &mut [u8], code: &[u8], set: SetNumber)
    requires { (length slot.old ≡ RULE-WIDTH) × (length code.now ≡ FILTER-BYTES) }
    ensures { slot.new ≡ rule_image (rule_with code.now set.0) }
{
    buffer::clear(slot);
    buffer::copy(slot, code);
    buffer::put_word(slot, SET_AT, set.0 as usize);
}

// A fresh plan over the front of a memory; the bytes behind it stay.
pub fn start(memory: &mut [u8], rooms: &[u8], settings: &[u8])
    requires { (length rooms.now ≡ ROOMS-BYTES) × (length settings.now ≡ SETTINGS-BYTES) × (bytes_needed (rooms_of rooms.now) ≤ length memory.old) }
    ensures { memory.new ≡ image (fresh rooms.now settings.now) ++ drop (bytes_needed (rooms_of rooms.now)) memory.old }
{
    let size = SETS_AT + SET_WIDTH * buffer::word(rooms, 0) + RULE_WIDTH * buffer::word(rooms, 2);
    buffer::clear(&mut memory[SETS_AT..size]);
    write_header(&mut memory[0..SETS_AT], rooms, settings);
}

// A set's content added or replaced.
pub fn store_set(memory: &mut [u8], set: SetNumber, content: &[u8])
    requires { (sound_of memory.old ≡ true) × (set.0 < set_room memory.old) × (length content.now ≡ CONTENT-BYTES) }
    ensures { memory.new ≡ image (with_slot set.0 (some content.now) (plan_of memory.old)) ++ rest_of memory.old }
{
    let a = set_start(set);
    let e = a + SET_WIDTH;
    write_set(&mut memory[a..e], content);
}

// A set taken out.
pub fn clear_set(memory: &mut [u8], set: SetNumber)
    requires { (sound_of memory.old ≡ true) × (set.0 < set_room memory.old) }
    ensures { memory.new ≡ image (with_slot set.0 none (plan_of memory.old)) ++ rest_of memory.old }
{
    let a = set_start(set);
    let e = a + SET_WIDTH;
    buffer::clear(&mut memory[a..e]);
}

// A rule put in before the one at a place.
pub fn insert_rule(memory: &mut [u8], place: RulePlace, code: &[u8], set: SetNumber)
    requires { (sound_of memory.old ≡ true) × (place.0 ≤ rule_count memory.old) × (rule_count memory.old < rule_room memory.old) × (length code.now ≡ FILTER-BYTES) }
    ensures { memory.new ≡ image (with_rules (insert_at place.0 (rule_with code.now set.0) (plan_of memory.old).rules) (plan_of memory.old)) ++ rest_of memory.old }
{
    let mut slot = [0u8; RULE_WIDTH];
    write_rule(&mut slot, code, set);
    let plan = SoundPlan { memory };
    let a = plan.rules_start();
    let n = plan.rule_count();
    let k = place.0 as usize;
    buffer::insert_slot(&mut memory[a..], RULE_WIDTH, n, k, &slot);
    buffer::put_word(memory, RULES_AT, n + 1);
}

// The rule at a place taken out.
pub fn remove_rule(memory: &mut [u8], place: RulePlace)
    requires { (sound_of memory.old ≡ true) × (place.0 < rule_count memory.old) }
    ensures { memory.new ≡ image (with_rules (remove_at place.0 (plan_of memory.old).rules) (plan_of memory.old)) ++ rest_of memory.old }
{
    let plan = SoundPlan { memory };
    let a = plan.rules_start();
    let n = plan.rule_count();
    let k = place.0 as usize;
    buffer::remove_slot(&mut memory[a..], RULE_WIDTH, n, k);
    buffer::put_word(memory, RULES_AT, n - 1);
}

// Another set named by the rule at a place.
pub fn rename_rule(memory: &mut [u8], place: RulePlace, set: SetNumber)
    requires { (sound_of memory.old ≡ true) × (place.0 < rule_count memory.old) }
    ensures { memory.new ≡ image (with_rules (renamed_at place.0 set.0 (plan_of memory.old).rules) (plan_of memory.old)) ++ rest_of memory.old }
{
    let k = place.0 as usize;
    let a = SoundPlan { memory }.rules_start() + RULE_WIDTH * k;
    let e = a + RULE_WIDTH;
    buffer::put_word(&mut memory[a..e], SET_AT, set.0 as usize);
}
