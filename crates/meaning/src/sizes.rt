// Every width of a body and of the plan's memory, and every place in them that more than one crate looks at: the twin of specs/Sizes.antt, name for name.
ghost use Rattle.std.specs.Prelude.{◌≡◌};
ghost use Rattle.meaning.specs.Sizes.{sizes, difference_sizes};

// AN OPENING: rooms, and the settings.
pub const ROOMS_BYTES: usize = 4;

// Places in the settings; a digit string is its count, and then its digits.
pub const COUNTRY_AT: usize = 0;

pub const COUNTRY_DIGITS_AT: usize = COUNTRY_AT + 1;

pub const DFLTRN_AT: usize = COUNTRY_DIGITS_AT + 3;

pub const DELIMITER_A_AT: usize = DFLTRN_AT + 1 + 15;

pub const DELIMITER_B_AT: usize = DELIMITER_A_AT + 1 + 5;

pub const ANSWERS_AT: usize = DELIMITER_B_AT + 1 + 5;

pub const ANSWERS_END: usize = ANSWERS_AT + 4;

pub const ACCEPTING_AT: usize = ANSWERS_END;

pub const SETTINGS_BYTES: usize = ACCEPTING_AT + 1;

pub const OPENING_BYTES: usize = ROOMS_BYTES + SETTINGS_BYTES;

// A SET: its number, and its content.
pub const SET_NUMBER_BYTES: usize = 2;

// Places in a content.
pub const OUTGOING_AT: usize = 0;

pub const CA_AT: usize = OUTGOING_AT + 1;

pub const SA_AT: usize = CA_AT + 12 * 2;

pub const FA_AT: usize = SA_AT + 8;

pub const FA_END: usize = FA_AT + 12;

pub const CONTENT_BYTES: usize = FA_END;

pub const SET_BODY: usize = SET_NUMBER_BYTES + CONTENT_BYTES;

// A RULE: its filter, with the prefix's count of digits before its digits, and the set that it names. A number has its class at the same place.
pub const CLASS_AT: usize = 0;

pub const PREFIX_AT: usize = 1;

pub const PREFIX_DIGITS_AT: usize = PREFIX_AT + 1;

pub const LENGTH_AT: usize = PREFIX_DIGITS_AT + 16;

pub const FILTER_BYTES: usize = LENGTH_AT + 1;

pub const SET_AT: usize = FILTER_BYTES;

pub const RULE_BODY: usize = SET_AT + SET_NUMBER_BYTES;

// AN ENTRY FOR A DIFFERENCE: behind its kind the filter, the left set and the right set.
pub const DIFFERENCE_FILTER_AT: usize = 1;

pub const LEFT_SET_AT: usize = DIFFERENCE_FILTER_AT + FILTER_BYTES;

pub const RIGHT_SET_AT: usize = LEFT_SET_AT + SET_NUMBER_BYTES;

pub const DIFFERENCE_BYTES: usize = RIGHT_SET_AT + SET_NUMBER_BYTES;

// A NUMBER: its count of digits before its digits, and its lookup; the part that values are taken from, and the whole.
pub const DIALLED_AT: usize = 1;

pub const DIALLED_DIGITS_AT: usize = DIALLED_AT + 1;

pub const LOOKUP_AT: usize = DIALLED_DIGITS_AT + 32;

// Places in a lookup, behind its kind.
pub const ENTITY_IN: usize = 1;

pub const ASD_IN: usize = ENTITY_IN + 1 + 15;

pub const GRN_IN: usize = ASD_IN + 1 + 10;

pub const LOOKUP_BYTES: usize = GRN_IN + 1 + 10;

pub const VALUE_BYTES: usize = LOOKUP_AT + LOOKUP_BYTES;

pub const NUMBER_BYTES: usize = VALUE_BYTES;

// A CALL RECORD: behind its account the district, the seconds and the billed, then a number.
pub const DISTRICT_AT: usize = 4;

pub const SECONDS_AT: usize = DISTRICT_AT + 2;

pub const BILLED_AT: usize = SECONDS_AT + 4;

pub const CALL_HEAD: usize = BILLED_AT + 4;

pub const CALL_BYTES: usize = CALL_HEAD + NUMBER_BYTES;

// A ROW OF A PRICE LIST: its prefix, and its price.
pub const CODE_BYTES: usize = 1 + 16;

pub const PRICE_BODY: usize = CODE_BYTES + 4;

// The longest record: its kind, and its body.
pub const LONGEST_RECORD: usize = 1 + CALL_BYTES;

pub const DIGIT_ROOM: usize = 35;

// THE PLAN'S MEMORY: the header, with the count of rules, the rooms and the settings, then the set slots, then the rule slots.
pub const HEADER_BYTES: usize = 64;

pub const RULES_AT: usize = 4;

pub const ROOMS_AT: usize = 8;

pub const ROOMS_END: usize = ROOMS_AT + ROOMS_BYTES;

pub const SETTINGS_AT: usize = ROOMS_END;

pub const SETTINGS_END: usize = SETTINGS_AT + SETTINGS_BYTES;

pub const SETS_AT: usize = HEADER_BYTES;

// A set slot.
pub const CONTENT_AT: usize = 1;

pub const COUNT_AT: usize = CONTENT_AT + CONTENT_BYTES;

pub const SET_WIDTH: usize = COUNT_AT + 2;

// A rule slot.
pub const RULE_WIDTH: usize = RULE_BODY + 3;

// THE MEMORY OF A PRICE LIST: the count of rows, then their slots, each with its price.
pub const PRICE_ROOM: usize = 256;

pub const ROWS_AT: usize = 2;

pub const PRICE_AT: usize = SET_AT;

pub const PRICE_END: usize = PRICE_AT + 4;

pub const PRICES_BYTES: usize = ROWS_AT + RULE_WIDTH * PRICE_ROOM;

// A LEDGER: three numbers a district.
pub const DISTRICTS: usize = 512;

pub const LEDGER_NUMBERS: usize = 3 * DISTRICTS;

// A RUN OF THE PROGRAM.
pub const RUN_SETS: usize = 64;

pub const RUN_RULES: usize = 512;

pub const RUN_BYTES: usize = SETS_AT + SET_WIDTH * RUN_SETS + RULE_WIDTH * RUN_RULES;

// All of them but those of an entry for a difference, in the order of this page: each is its twin.
pub fn sizes() -> [usize; 65]
    ensures { result ≡ sizes }
{
    [
        ROOMS_BYTES,
        COUNTRY_AT,
        COUNTRY_DIGITS_AT,
        DFLTRN_AT,
        DELIMITER_A_AT,
        DELIMITER_B_AT,
        ANSWERS_AT,
        ANSWERS_END,
        ACCEPTING_AT,
        SETTINGS_BYTES,
        OPENING_BYTES,
        SET_NUMBER_BYTES,
        OUTGOING_AT,
        CA_AT,
        SA_AT,
        FA_AT,
        FA_END,
        CONTENT_BYTES,
        SET_BODY,
        CLASS_AT,
        PREFIX_AT,
        PREFIX_DIGITS_AT,
        LENGTH_AT,
        FILTER_BYTES,
        SET_AT,
        RULE_BODY,
        DIALLED_AT,
        DIALLED_DIGITS_AT,
        LOOKUP_AT,
        ENTITY_IN,
        ASD_IN,
        GRN_IN,
        LOOKUP_BYTES,
        VALUE_BYTES,
        NUMBER_BYTES,
        DISTRICT_AT,
        SECONDS_AT,
        BILLED_AT,
        CALL_HEAD,
        CALL_BYTES,
        CODE_BYTES,
        PRICE_BODY,
        LONGEST_RECORD,
        DIGIT_ROOM,
        HEADER_BYTES,
        RULES_AT,
        ROOMS_AT,
        ROOMS_END,
        SETTINGS_AT,
        SETTINGS_END,
        SETS_AT,
        CONTENT_AT,
        COUNT_AT,
        SET_WIDTH,
        RULE_WIDTH,
        PRICE_ROOM,
        ROWS_AT,
        PRICE_AT,
        PRICE_END,
        PRICES_BYTES,
        DISTRICTS,
        LEDGER_NUMBERS,
        RUN_SETS,
        RUN_RULES,
        RUN_BYTES,
    ]
}

// Those of an entry for a difference: each is its twin.
pub fn difference_sizes() -> [usize; 4]
    ensures { result ≡ difference_sizes }
{
    [
        DIFFERENCE_FILTER_AT,
        LEFT_SET_AT,
        RIGHT_SET_AT,
        DIFFERENCE_BYTES,
    ]
}
