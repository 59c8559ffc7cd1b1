// The kinds of house records: the twin of those in specs/Calls.antt.
ghost use Rattle.std.specs.Prelude.{◌≡◌};
ghost use Rattle.meaning.specs.Calls.{kinds, is_kind, is_call};
ghost use Rattle.meaning.specs.Answers.{number_of_edit, number_of_kind, GivesKind};
ghost use Rattle.meaning.specs.Bodies.{BodyBytes};

use crate::sizes::{
    CALL_BYTES, FILTER_BYTES, NUMBER_BYTES, OPENING_BYTES, PRICE_BODY, RULE_BODY, SET_BODY,
    SET_NUMBER_BYTES,
};

// The calls that open and provision.
pub const OPEN_PLAN: u8 = 0;

pub const ADD_SET: u8 = 1;

pub const REPLACE_SET: u8 = 2;

pub const REMOVE_SET: u8 = 3;

pub const ADD_RULE: u8 = 4;

pub const CHANGE_RULE: u8 = 5;

pub const REMOVE_RULE: u8 = 6;

// The records that read: a number, a count of rules naming a set, a listing.
pub const NUMBER: u8 = 7;

pub const REFS: u8 = 8;

pub const LIST: u8 = 9;

// The records of C-11: a call, a row of the price list, the losses.
pub const CALL: u8 = 16;

pub const PRICE: u8 = 17;

pub const LOSSES: u8 = 18;

// All of them, in this order: each is its twin.
pub fn kinds() -> [u8; 13]
    ensures { result ≡ kinds }
{
    [
        OPEN_PLAN,
        ADD_SET,
        REPLACE_SET,
        REMOVE_SET,
        ADD_RULE,
        CHANGE_RULE,
        REMOVE_RULE,
        NUMBER,
        REFS,
        LIST,
        CALL,
        PRICE,
        LOSSES,
    ]
}

// An edit of a plan that is there: a call that provisions.
#[derive(Clone, Copy)]
pub enum Edit {
    AddSet,
    ReplaceSet,
    RemoveSet,
    AddRule,
    ChangeRule,
    RemoveRule,
}

// A kind of house records.
#[derive(Clone, Copy)]
pub enum Kind {
    Opening,
    Edit(Edit),
    Number,
    Refs,
    List,
    Call,
    Price,
    Losses,
}

// A byte that is no kind.
#[derive(Clone, Copy)]
pub struct UnknownKind(pub u8);

impl TryFrom<u8> for Kind {
    type Error = UnknownKind;

    ghost try_from_gives = { GivesKind };

    fn try_from(b: u8) -> Result<Kind, UnknownKind> {
        match b {
            OPEN_PLAN => Ok(Kind::Opening),
            ADD_SET => Ok(Kind::Edit(Edit::AddSet)),
            REPLACE_SET => Ok(Kind::Edit(Edit::ReplaceSet)),
            REMOVE_SET => Ok(Kind::Edit(Edit::RemoveSet)),
            ADD_RULE => Ok(Kind::Edit(Edit::AddRule)),
            CHANGE_RULE => Ok(Kind::Edit(Edit::ChangeRule)),
            REMOVE_RULE => Ok(Kind::Edit(Edit::RemoveRule)),
            NUMBER => Ok(Kind::Number),
            REFS => Ok(Kind::Refs),
            LIST => Ok(Kind::List),
            CALL => Ok(Kind::Call),
            PRICE => Ok(Kind::Price),
            LOSSES => Ok(Kind::Losses),
            _ => Err(UnknownKind(b)),
        }
    }
}

impl Edit {
    // How many bytes its body has.
    #[tactic(auto, unfolding(crate::specs::Calls::body_length))]
    pub fn body_length(self) -> usize
        ensures { BodyBytes (number_of_edit self) result }
    {
        match self {
            Edit::AddSet => SET_BODY,
            Edit::ReplaceSet => SET_BODY,
            Edit::RemoveSet => SET_NUMBER_BYTES,
            Edit::AddRule => RULE_BODY,
            Edit::ChangeRule => RULE_BODY,
            Edit::RemoveRule => FILTER_BYTES,
        }
    }
}

impl Kind {
    // How many bytes the body of a record has.
    #[tactic(auto, unfolding(crate::specs::Calls::body_length))]
    pub fn body_length(self) -> usize
        ensures { BodyBytes (number_of_kind self) result }
    {
        match self {
            Kind::Opening => OPENING_BYTES,
            Kind::Edit(edit) => edit.body_length(),
            Kind::Number => NUMBER_BYTES,
            Kind::Refs => SET_NUMBER_BYTES,
            Kind::List => 0,
            Kind::Call => CALL_BYTES,
            Kind::Price => PRICE_BODY,
            Kind::Losses => 0,
        }
    }

    // Whether it is that of a call that opens or provisions.
    #[tactic(auto, unfolding(crate::specs::Calls::is_call))]
    pub fn is_call(self) -> bool
        ensures { result ≡ is_call (number_of_kind self) }
    {
        matches!(self, Kind::Opening | Kind::Edit(_))
    }
}

// How many bytes the body of a record has, by its kind byte; none for a byte that is no kind.
pub fn body_length(kind: u8) -> usize
    ensures { BodyBytes kind result }
{
    match Kind::try_from(kind) {
        Ok(kind) => kind.body_length(),
        Err(_) => 0,
    }
}

// Whether a byte is a kind of house records.
pub fn is_kind(kind: u8) -> bool
    ensures { result ≡ is_kind kind }
{
    Kind::try_from(kind).is_ok()
}

// Whether it is the kind of a call that opens or provisions.
pub fn is_call(kind: u8) -> bool
    ensures { result ≡ is_call kind }
{
    match Kind::try_from(kind) {
        Ok(kind) => kind.is_call(),
        Err(_) => false,
    }
}
