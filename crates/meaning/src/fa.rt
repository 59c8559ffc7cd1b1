// The values, by the codes of the formatting actions that send them: the twin of those in specs/Actions.antt.
ghost use Rattle.std.specs.Prelude.{◌≡◌};
ghost use Rattle.meaning.specs.Actions.{fa_codes};

pub const CC: u8 = 1;

pub const AC: u8 = 2;

pub const SN: u8 = 3;

pub const DN: u8 = 4;

pub const ZN: u8 = 5;

// The last value that conditioning sets, PFXD.
pub const LAST_CONDITIONED: u8 = 10;

pub const RN: u8 = 11;

pub const SP: u8 = 12;

pub const ASD: u8 = 13;

pub const GRN: u8 = 14;

pub const DELIMITER_A: u8 = 15;

pub const DELIMITER_B: u8 = 16;

// All of them, in this order: each is its twin.
pub fn codes() -> [u8; 12]
    ensures { result ≡ fa_codes }
{
    [
        CC,
        AC,
        SN,
        DN,
        ZN,
        LAST_CONDITIONED,
        RN,
        SP,
        ASD,
        GRN,
        DELIMITER_A,
        DELIMITER_B,
    ]
}
