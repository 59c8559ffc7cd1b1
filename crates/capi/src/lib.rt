// The calls for C and Rust, over numbers and byte slices: each promises what the call that it stands for promises.
#![tactic(auto)]

ghost use Rattle.std.specs.Prelude.{◌≡◌, length};
ghost use Rattle.meaning.specs.Calls.{open_plan, add_set, replace_set, remove_set, add_rule, change_rule, remove_rule};
ghost use Rattle.meaning.specs.Answers.{count_of, rule_given, rule_wanted, loss_given};
ghost use Rattle.meaning.specs.Compare.{comparison};
ghost use Rattle.meaning.specs.Ledger.{ledger_of, loss_read, total_read};
ghost use Rattle.meaning.specs.Reads.{conditioned, set_content, referrer_count, rule_count, rule_at_place};
ghost use Rattle.plan.specs.State.{sound_of, state_of};
ghost use Rattle.changes.specs.Promise.{Provides, calls};
ghost use Rattle.number.specs.Promises.{AnswerPromise};
ghost use Rattle.prices.specs.Promises.{AddsPrice};
ghost use Rattle.charging.specs.Promises.{Takes};
ghost use Rattle.reads.specs.Promises.{SpanPromise};
ghost use Rattle.history.specs.Replays.{Replays};
ghost use Rattle.capi.specs.Given.{WrittenAs, CountedAs, listed_as, GivesWritten, ComparedAs, GivesCompared, loss_as};

use meaning::refusals::ACCEPTED;
use meaning::sizes::{LEDGER_NUMBERS, PRICES_BYTES};
use meaning::{
    Answered, ListedRule, Loss, Refusal, RulePlace, SetNumber, Span, Totals, answer_number,
};

// What a call that writes gives: the number of its refusal or 0, and how many bytes it wrote.
#[repr(C)]
#[derive(Clone, Copy)]
pub struct NppWritten {
    pub refusal: u8,
    pub bytes: usize,
}

// What a call that counts gives: the number of its refusal or 0, and how many rules it counted.
#[repr(C)]
#[derive(Clone, Copy)]
pub struct NppCounted {
    pub refusal: u8,
    pub rules: usize,
}

// What the listing gives of a rule: the number of its refusal or 0; class, how many digits the prefix has, length; the prefix, its unused bytes 0; the set.
#[repr(C)]
#[derive(Clone, Copy)]
pub struct NppListed {
    pub refusal: u8,
    pub class: u8,
    pub digits: u8,
    pub length: u8,
    pub prefix: [u8; 16],
    pub set: u16,
}

// What a call that reads a loss gives: the number of its refusal or 0; whether there are records, 1 or 0; the loss in sixtieths of a thousandth of a cent, and in
// whole cents.
#[repr(C)]
#[derive(Clone, Copy)]
pub struct NppLoss {
    pub refusal: u8,
    pub held: u8,
    pub units: i64,
    pub cents: i64,
}

// What comparing two plans gives: the number of its refusal or 0, and how many differences there are.
#[repr(C)]
#[derive(Clone, Copy)]
pub struct NppCompared {
    pub refusal: u8,
    pub differences: usize,
}

// Whether a memory is a sound plan of this build.
#[unsafe(no_mangle)]
pub extern "C" fn npp_sound(memory: &[u8]) -> bool
    ensures { result ≡ sound_of memory.now }
{
    examiner::sound(memory)
}

// Opens a plan over a memory, whatever it holds.
#[unsafe(no_mangle)]
pub extern "C" fn npp_open(plan: &mut [u8], body: &[u8]) -> u8
    ensures { Provides (calls open_plan body.now) plan.old plan.new result }
{
    answer_number(provision::open(plan, body))
}

// Adds a set.
#[unsafe(no_mangle)]
pub extern "C" fn npp_add_set(plan: &mut [u8], body: &[u8]) -> u8
    ensures { Provides (calls add_set body.now) plan.old plan.new result }
{
    answer_number(provision::add_set(plan, body))
}

// Replaces the content of a set.
#[unsafe(no_mangle)]
pub extern "C" fn npp_replace_set(plan: &mut [u8], body: &[u8]) -> u8
    ensures { Provides (calls replace_set body.now) plan.old plan.new result }
{
    answer_number(provision::replace_set(plan, body))
}

// Removes a set that no rule names.
#[unsafe(no_mangle)]
pub extern "C" fn npp_remove_set(plan: &mut [u8], body: &[u8]) -> u8
    ensures { Provides (calls remove_set body.now) plan.old plan.new result }
{
    answer_number(provision::remove_set(plan, body))
}

// Adds a rule.
#[unsafe(no_mangle)]
pub extern "C" fn npp_add_rule(plan: &mut [u8], body: &[u8]) -> u8
    ensures { Provides (calls add_rule body.now) plan.old plan.new result }
{
    answer_number(provision::add_rule(plan, body))
}

// Changes the set that a rule names.
#[unsafe(no_mangle)]
pub extern "C" fn npp_change_rule(plan: &mut [u8], body: &[u8]) -> u8
    ensures { Provides (calls change_rule body.now) plan.old plan.new result }
{
    answer_number(provision::change_rule(plan, body))
}

// Removes a rule.
#[unsafe(no_mangle)]
pub extern "C" fn npp_remove_rule(plan: &mut [u8], body: &[u8]) -> u8
    ensures { Provides (calls remove_rule body.now) plan.old plan.new result }
{
    answer_number(provision::remove_rule(plan, body))
}

// Answers a number.
#[unsafe(no_mangle)]
pub extern "C" fn npp_answer<'a>(plan: &'a [u8], body: &'a [u8], out: &mut [u8]) -> Answered
    ensures { AnswerPromise plan.now body.now out.old out.new result }
{
    number::answer(plan, body, out)
}

impl From<Result<usize, Refusal>> for NppWritten {
    ghost from_gives = { WrittenAs };

    fn from(written: Result<usize, Refusal>) -> NppWritten {
        match written {
            Ok(bytes) => NppWritten {
                refusal: ACCEPTED,
                bytes,
            },
            Err(refusal) => NppWritten {
                refusal: u8::from(refusal),
                bytes: 0,
            },
        }
    }
}

// The conditioned number, for the lookup.
#[unsafe(no_mangle)]
pub extern "C" fn npp_conditioned<'a>(
    plan: &'a [u8],
    class: u8,
    digits: &'a [u8],
    out: &mut [u8],
) -> NppWritten
    ensures { GivesWritten (conditioned (state_of plan.now) (length out.old) class digits.now) out.old out.new result }
{
    NppWritten::from(reads::conditioned(plan, class, digits, out))
}

// The content of a set.
#[unsafe(no_mangle)]
pub extern "C" fn npp_set_content(plan: &[u8], set: u16, out: &mut [u8]) -> NppWritten
    ensures { GivesWritten (set_content (state_of plan.now) (length out.old) set) out.old out.new result }
{
    NppWritten::from(reads::set_content(plan, SetNumber(set), out))
}

impl From<Result<usize, Refusal>> for NppCounted {
    ghost from_gives = { λ counted r. CountedAs (count_of counted) r };

    fn from(counted: Result<usize, Refusal>) -> NppCounted {
        match counted {
            Ok(rules) => NppCounted {
                refusal: ACCEPTED,
                rules,
            },
            Err(refusal) => NppCounted {
                refusal: u8::from(refusal),
                rules: 0,
            },
        }
    }
}

// How many rules name a set.
#[unsafe(no_mangle)]
pub extern "C" fn npp_referrers(plan: &[u8], set: u16) -> NppCounted
    ensures { CountedAs (referrer_count (state_of plan.now) set) result }
{
    NppCounted::from(reads::referrers(plan, SetNumber(set)))
}

// Where the stretch of a value starts and how many digits it has.
#[unsafe(no_mangle)]
pub extern "C" fn npp_stretch(plan: &[u8], class: u8, digits: &[u8], value: u8) -> Span
    ensures { SpanPromise plan.now class digits.now value result }
{
    reads::span(plan, class, digits, value)
}

// How many rules are listed.
#[unsafe(no_mangle)]
pub extern "C" fn npp_rule_count(plan: &[u8]) -> NppCounted
    ensures { CountedAs (rule_count (state_of plan.now)) result }
{
    NppCounted::from(listing::rule_count(plan))
}

impl From<Result<ListedRule, Refusal>> for NppListed {
    ghost from_gives = { λ listed r. r ≡ listed_as (rule_given listed) };

    fn from(listed: Result<ListedRule, Refusal>) -> NppListed {
        match listed {
            Ok(rule) => {
                let prefix = rule.prefix;
                NppListed {
                    refusal: ACCEPTED,
                    class: rule.class,
                    digits: rule.digits,
                    length: rule.length,
                    prefix,
                    set: rule.set.0,
                }
            }
            Err(refusal) => NppListed {
                refusal: u8::from(refusal),
                class: 0,
                digits: 0,
                length: 0,
                prefix: [0; 16],
                set: 0,
            },
        }
    }
}

// The rule at a place of the listing.
#[unsafe(no_mangle)]
pub extern "C" fn npp_rule_at(plan: &[u8], place: u16) -> NppListed
    ensures { result ≡ listed_as (rule_wanted (rule_at_place (state_of plan.now) place)) }
{
    NppListed::from(listing::rule_at(plan, RulePlace(place)))
}

// Runs a list of provisioning calls, given as house records, on one plan memory; writes the number of each, and answers how many were carried out.
#[unsafe(no_mangle)]
pub extern "C" fn npp_replay(plan: &mut [u8], calls: &[u8], numbers: &mut [u8]) -> usize
    ensures { Replays plan.old calls.now numbers.old plan.new numbers.new result }
{
    history::replay(plan, calls, numbers)
}

// TWO PLANS SIDE BY SIDE

impl From<Result<usize, Refusal>> for NppCompared {
    ghost from_gives = { λ compared r. ComparedAs (count_of compared) r };

    fn from(compared: Result<usize, Refusal>) -> NppCompared {
        match compared {
            Ok(differences) => NppCompared {
                refusal: ACCEPTED,
                differences,
            },
            Err(refusal) => NppCompared {
                refusal: u8::from(refusal),
                differences: 0,
            },
        }
    }
}

// What differs between two plans, which may be one memory.
#[unsafe(no_mangle)]
pub extern "C" fn npp_compare<'a>(left: &'a [u8], right: &'a [u8], out: &mut [u8]) -> NppCompared
    ensures { GivesCompared (comparison (state_of left.now) (state_of right.now) (length out.old)) out.old out.new result }
{
    NppCompared::from(compare::compare(left, right, out))
}

// THE LOSS BY DISTRICT

// Adds a row to a price list.
#[unsafe(no_mangle)]
pub extern "C" fn npp_add_price(prices: &mut [u8; PRICES_BYTES], body: &[u8]) -> u8
    ensures { AddsPrice prices.old body.now prices.new result }
{
    answer_number(prices::add_price(prices, body))
}

// Takes a call record. The ledger is changed where it stands: this is the one function that has its totals by reference.
#[unsafe(no_mangle)]
pub extern "C" fn npp_take_call<'a>(
    plan: &'a [u8],
    prices: &'a [u8; PRICES_BYTES],
    districts: &mut [i64; LEDGER_NUMBERS],
    whole: &mut Totals,
    body: &'a [u8],
    out: &mut [u8],
) -> Answered
    ensures { Takes plan.now prices.now (ledger_of districts.old whole.old) body.now out.old (ledger_of districts.new whole.new) out.new result }
{
    let t = charging::take_call(plan, prices, districts, *whole, body, out);
    *whole = t.whole;
    t.answer
}

impl From<Result<Option<Loss>, Refusal>> for NppLoss {
    ghost from_gives = { λ read r. r ≡ loss_as (loss_given read) };

    fn from(read: Result<Option<Loss>, Refusal>) -> NppLoss {
        match read {
            Ok(Some(loss)) => NppLoss {
                refusal: ACCEPTED,
                held: 1,
                units: loss.units,
                cents: loss.cents,
            },
            Ok(None) => NppLoss {
                refusal: ACCEPTED,
                held: 0,
                units: 0,
                cents: 0,
            },
            Err(refusal) => NppLoss {
                refusal: u8::from(refusal),
                held: 0,
                units: 0,
                cents: 0,
            },
        }
    }
}

// The loss of a district.
#[unsafe(no_mangle)]
pub extern "C" fn npp_district_loss(
    districts: &[i64; LEDGER_NUMBERS],
    whole: Totals,
    district: u16,
) -> NppLoss
    ensures { result ≡ loss_as (loss_read (ledger_of districts.now whole) district) }
{
    NppLoss::from(ledger::district_loss(districts, whole, district))
}

// The loss of all districts.
#[unsafe(no_mangle)]
pub extern "C" fn npp_total_loss(districts: &[i64; LEDGER_NUMBERS], whole: Totals) -> NppLoss
    ensures { result ≡ loss_as (total_read (ledger_of districts.now whole)) }
{
    NppLoss::from(ledger::total_loss(districts, whole))
}
