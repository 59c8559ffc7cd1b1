// The codes of the conditioning actions that are told apart by name: the twin of those in specs/Actions.antt.
ghost use Rattle.std.specs.Prelude.{◌≡◌};
ghost use Rattle.meaning.specs.Actions.{ca_codes};

pub const IGN: u8 = 1;

// The last code that has a count, PFXD.
pub const LAST_COUNTED: u8 = 10;

// The X actions, SNX to ZNX.
pub const SNX: u8 = 11;

pub const ZNX: u8 = 13;

pub const FPFX: u8 = 14;

pub const CCDEF: u8 = 15;

// All of them, in this order: each is its twin.
pub fn codes() -> [u8; 6]
    ensures { result ≡ ca_codes }
{
    [IGN, LAST_COUNTED, SNX, ZNX, FPFX, CCDEF]
}
