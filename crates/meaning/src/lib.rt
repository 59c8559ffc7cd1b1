// The types that promises name. What each means is defined in specs/: document 01's numbers and values for every case.
#![tactic(auto)]

ghost use Rattle.std.specs.Prelude.{◌≡◌};
ghost use Rattle.meaning.specs.Answers.{class_of, outgoing_of, code_of, number_of_refusal, number_of_provisioned};

pub mod ca;
pub mod fa;
pub mod kinds;
pub mod refusals;
pub mod sa;
pub mod sizes;

// A class of numbers: INTL, NATL, UNKNOWN and three house classes.
#[derive(Clone, Copy)]
pub struct Class(u8);

impl Class {
    pub const INTL: Class = Class(0);

    pub const NATL: Class = Class(1);

    pub const UNKNOWN: Class = Class(2);

    pub const HOUSE3: Class = Class(3);

    pub const HOUSE4: Class = Class(4);

    pub const HOUSE5: Class = Class(5);
}

// What a set sends as the outgoing class: a class, or the incoming one.
#[derive(Clone, Copy)]
pub enum Outgoing {
    Given(Class),
    AsIncoming,
}

// A byte that is no class.
#[derive(Clone, Copy)]
pub struct UnknownClass(pub u8);

// Every byte but 0 to 5 is refused.
impl TryFrom<u8> for Class {
    type Error = UnknownClass;

    ghost try_from_gives = { λ b r. r ≡ class_of b };

    fn try_from(b: u8) -> Result<Class, UnknownClass> {
        match b {
            0 => Ok(Class::INTL),
            1 => Ok(Class::NATL),
            2 => Ok(Class::UNKNOWN),
            3 => Ok(Class::HOUSE3),
            4 => Ok(Class::HOUSE4),
            5 => Ok(Class::HOUSE5),
            _ => Err(UnknownClass(b)),
        }
    }
}

// A class, or 255 for "as incoming".
impl TryFrom<u8> for Outgoing {
    type Error = UnknownClass;

    ghost try_from_gives = { λ b r. r ≡ outgoing_of b };

    fn try_from(b: u8) -> Result<Outgoing, UnknownClass> {
        if b == 255 {
            return Ok(Outgoing::AsIncoming);
        }
        let class = Class::try_from(b)?;
        Ok(Outgoing::Given(class))
    }
}

impl From<Class> for u8 {
    ghost from_gives = { λ class b. b ≡ code_of class };

    fn from(class: Class) -> u8 {
        class.0
    }
}

// The number of a set.
#[derive(Clone, Copy)]
pub struct SetNumber(pub u16);

// A rule's place in the listing.
#[derive(Clone, Copy)]
pub struct RulePlace(pub u16);

// The refusals of document 01 and of C-11.
#[derive(Clone, Copy)]
pub enum Refusal {
    Cut,
    Kind,
    Plan,
    Room,
    Range,
    Groups,
    Taken,
    Absent,
    Misfit,
    Full,
    InUse,
    Short,
    Long,
    NoPrice,
    LedgerFull,
}

// Document 01's number.
impl From<Refusal> for u8 {
    ghost from_gives = { λ refusal n. n ≡ number_of_refusal refusal };

    fn from(refusal: Refusal) -> u8 {
        match refusal {
            Refusal::Cut => refusals::CUT,
            Refusal::Kind => refusals::KIND,
            Refusal::Plan => refusals::PLAN,
            Refusal::Room => refusals::ROOM,
            Refusal::Range => refusals::RANGE,
            Refusal::Groups => refusals::GROUPS,
            Refusal::Taken => refusals::TAKEN,
            Refusal::Absent => refusals::ABSENT,
            Refusal::Misfit => refusals::MISFIT,
            Refusal::Full => refusals::FULL,
            Refusal::InUse => refusals::IN_USE,
            Refusal::Short => refusals::SHORT,
            Refusal::Long => refusals::LONG,
            Refusal::NoPrice => refusals::NO_PRICE,
            Refusal::LedgerFull => refusals::LEDGER_FULL,
        }
    }
}

// The number of what opening and provisioning answer: 0 for an accepted call, else that of its refusal.
pub fn answer_number(provisioned: Result<(), Refusal>) -> u8
    ensures { result ≡ number_of_provisioned provisioned }
{
    match provisioned {
        Ok(()) => refusals::ACCEPTED,
        Err(refusal) => u8::from(refusal),
    }
}

// The answer to a number. The digits themselves stand at the front of the lent buffer.
#[repr(C)]
#[derive(Clone, Copy)]
pub struct Answered {
    pub refusal: u8,
    pub outcome: u8,
    pub class: u8,
    pub response: u8,
    pub count: u8,
    pub actions: [u8; 8],
    pub digits: usize,
}

// A stretch of the incoming number: where it starts, and how many digits it has.
#[repr(C)]
#[derive(Clone, Copy)]
pub struct Span {
    pub start: usize,
    pub count: usize,
}

// A rule of the listing: its filter's class, how many digits its prefix has, the prefix at its full width with unused bytes 0, the length, and
// the set that it names.
#[derive(Clone, Copy)]
pub struct ListedRule {
    pub class: u8,
    pub digits: u8,
    pub prefix: [u8; 16],
    pub length: u8,
    pub set: SetNumber,
}

// What a ledger holds of a district, or of the whole: how many records, and their due and billed in sixtieths of a thousandth of a cent.
#[repr(C)]
#[derive(Clone, Copy)]
pub struct Totals {
    pub count: i64,
    pub due: i64,
    pub billed: i64,
}

// What taking a call record answers: the number's answer, and the whole's totals afterwards.
#[derive(Clone, Copy)]
pub struct Taken {
    pub answer: Answered,
    pub whole: Totals,
}

// A loss: in sixtieths of a thousandth of a cent, and in whole cents.
#[derive(Clone, Copy)]
pub struct Loss {
    pub units: i64,
    pub cents: i64,
}
