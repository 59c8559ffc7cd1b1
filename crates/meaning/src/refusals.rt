// The numbers of the refusals of document 01 and of C-11: the twin of specs/Refusals.antt. `Refusal::number` ties the two.
pub const ACCEPTED: u8 = 0;

pub const CUT: u8 = 1;

pub const KIND: u8 = 2;

pub const PLAN: u8 = 3;

pub const ROOM: u8 = 4;

pub const RANGE: u8 = 5;

pub const GROUPS: u8 = 6;

pub const TAKEN: u8 = 7;

pub const ABSENT: u8 = 8;

pub const MISFIT: u8 = 9;

pub const FULL: u8 = 10;

pub const IN_USE: u8 = 11;

pub const SHORT: u8 = 12;

pub const LONG: u8 = 13;

pub const NO_PRICE: u8 = 14;

pub const LEDGER_FULL: u8 = 15;
