// The codes of the service actions: the twin of those in specs/Actions.antt.
ghost use Rattle.std.specs.Prelude.{◌≡◌};
ghost use Rattle.meaning.specs.Actions.{sa_codes};

pub const INPRTG: u8 = 1;

pub const CDPNNP: u8 = 2;

pub const ASDLKUP: u8 = 3;

pub const GRNLKUP: u8 = 4;

pub const CDIAL: u8 = 5;

// All of them, in this order: each is its twin.
pub fn codes() -> [u8; 5]
    ensures { result ≡ sa_codes }
{
    [INPRTG, CDPNNP, ASDLKUP, GRNLKUP, CDIAL]
}
