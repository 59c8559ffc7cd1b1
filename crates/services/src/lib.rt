// The service stage: a set's service actions carried out in list order over a lookup.
#![tactic(auto)]

ghost use Rattle.std.specs.Prelude.{◌≡◌, length};
ghost use Rattle.meaning.specs.Sizes.{SETTINGS-BYTES, LOOKUP-BYTES};
ghost use Rattle.meaning.specs.Settings.{settings_of, lookup_of};
ghost use Rattle.meaning.specs.Services.{unsuccessful};
ghost use Rattle.services.specs.Stages.{response_after, withheld_after, carried_after, effect_after, code_listed, Serviceable, ServedFrom, ServedAnew};

use actions::codes_in;
use meaning::sa::{ASDLKUP, CDIAL, CDPNNP, GRNLKUP, INPRTG};
use meaning::sizes::{ACCEPTING_AT, ANSWERS_AT};

// The response RELAY: the stage goes on. It ends at every response above.
const RELAY: u8 = 1;

// What the service actions have come to: the response, 0 for none; whether formatting is withheld; and whether CDPNNP, ASDLKUP and GRNLKUP
// were carried out, which decides the values that are set.
#[derive(Clone, Copy, Default)]
pub struct Effect {
    pub response: u8,
    pub withheld: bool,
    pub ported: bool,
    pub asd: bool,
    pub grn: bool,
}

// The service actions carried out, their count, and what they have come to.
#[derive(Clone, Copy)]
pub struct Served {
    pub actions: [u8; 8],
    pub count: u8,
    pub effect: Effect,
}

// ONE ACTION, by its code. Each field has a test of its own, so that no jump by the code is needed.

// INPRTG sets the response.
fn response_after(code: u8, answer: u8, response: u8) -> u8
    ensures { result ≡ response_after code answer response }
{
    if code == INPRTG { answer } else { response }
}

// CDPNNP withholds formatting where it is unsuccessful; CDIAL lifts the withholding.
fn withheld_after(code: u8, fails: bool, withheld: bool) -> bool
    ensures { result ≡ withheld_after code fails withheld }
{
    if code == CDPNNP {
        return fails || withheld;
    }
    if CDIAL <= code {
        return false;
    }
    withheld
}

// Whether an action was carried out, before or now.
fn carried_after(code: u8, action: u8, carried: bool) -> bool
    ensures { result ≡ carried_after code action carried }
{
    code == action || carried
}

// One action, for whether CDPNNP is unsuccessful and INPRTG's answer: CDPNNP sets RN and SP, ASDLKUP sets ASD, GRNLKUP sets GRN.
#[tactic(auto, unfolding(crate::specs::Stages::effect_after))]
fn carry_out(e: Effect, code: u8, fails: bool, answer: u8) -> Effect
    ensures { result ≡ effect_after code fails answer e }
{
    Effect {
        response: response_after(code, answer, e.response),
        withheld: withheld_after(code, fails, e.withheld),
        ported: carried_after(code, CDPNNP, e.ported),
        asd: carried_after(code, ASDLKUP, e.asd),
        grn: carried_after(code, GRNLKUP, e.grn),
    }
}

// The code by which an action is listed: one above CDIAL is carried out as CDIAL.
#[tactic(auto, unfolding(crate::specs::Stages::code_listed))]
fn code_listed(code: u8) -> u8
    ensures { result ≡ code_listed code }
{
    if CDIAL < code { CDIAL } else { code }
}

// Whether CDPNNP is unsuccessful: there is no record, or one without entity where the settings do not say that any record is accepted.
#[tactic(auto, unfolding(meaning::specs::Services::unsuccessful, meaning::specs::Settings::settings_of, meaning::specs::Settings::lookup_of))]
fn is_unsuccessful(settings: &[u8], lookup: &[u8]) -> bool
    requires { (length settings.now ≡ SETTINGS-BYTES) × (length lookup.now ≡ LOOKUP-BYTES) }
    ensures { result ≡ unsuccessful (settings_of settings.now) (lookup_of lookup.now) }
{
    let kind = lookup[0];
    kind == 0 || (kind == 1 && settings[ACCEPTING_AT] == 0)
}

// The actions in list order, listed over the eight places passed in.
pub fn serve(sas: &[u8], settings: &[u8], lookup: &[u8], places: [u8; 8]) -> Served
    requires { Serviceable sas.now settings.now lookup.now }
    ensures { ServedFrom places sas.now settings.now lookup.now result }
{
    let kind = lookup[0];
    let answer = settings[ANSWERS_AT + usize::from(kind)];
    let fails = is_unsuccessful(settings, lookup);
    let mut actions = places;
    let mut count = 0;
    let mut effect = Effect::default();
    for code in codes_in(sas) {
        if RELAY < effect.response {
            break;
        }
        actions[count] = code_listed(code);
        effect = carry_out(effect, code, fails, answer);
        count += 1;
    }
    Served {
        actions,
        count: count as u8,
        effect,
    }
}

// The service stage of a number, from eight places that are all zero.
pub fn service_stage(sas: &[u8], settings: &[u8], lookup: &[u8]) -> Served
    requires { Serviceable sas.now settings.now lookup.now }
    ensures { ServedAnew sas.now settings.now lookup.now result }
{
    serve(sas, settings, lookup, [0u8; 8])
}
