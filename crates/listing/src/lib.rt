// The listing: how many rules a plan holds, and the rule at a place in listing order; for any plan bytes and any place.
#![tactic(auto)]

ghost use Rattle.std.specs.Prelude.{◌≡◌, length};
ghost use Rattle.std.proofs.Math.Option.{some};
ghost use Rattle.meaning.specs.Answers.{rule_listed, rule_given, rule_wanted};
ghost use Rattle.meaning.specs.Reads.{listed, listing, rule_at_place};
ghost use Rattle.plan.specs.Layout.{plan_of};
ghost use Rattle.plan.specs.Readings.{rule_placed};
ghost use Rattle.listing.specs.Promises.{CountPromise, ListedPromise};

use meaning::sizes::{CLASS_AT, LENGTH_AT, PREFIX_AT, PREFIX_DIGITS_AT};
use meaning::{ListedRule, Refusal, RulePlace};
use plan::{HeldRule, SoundPlan};

// THE COUNT OF RULES

// Over a plan that is known to be sound.
#[tactic(auto, using(crate::proofs::Listed::length_listing))]
pub fn count_known(plan: SoundPlan) -> usize
    ensures { result ≡ length (listing (plan_of plan.entry.memory.now)) }
{
    plan.rule_count()
}

// How many rules are listed.
pub fn rule_count(plan: &[u8]) -> Result<usize, Refusal>
    ensures { CountPromise plan.now result }
{
    let plan = examiner::examine(plan)?;
    Ok(count_known(plan))
}

// THE RULE AT A PLACE

// A rule that is held, as it is listed.
fn held_at(rule: HeldRule) -> ListedRule
    ensures { result ≡ rule_listed (listed (rule_placed rule.entry.plan.memory.now rule.entry.place.0)) }
{
    let slot = rule.slot();
    let digits = slot[PREFIX_AT];
    let end = PREFIX_DIGITS_AT + usize::from(digits);
    let mut prefix = [0u8; 16];
    buffer::copy(&mut prefix, &slot[PREFIX_DIGITS_AT..end]);
    ListedRule {
        class: slot[CLASS_AT],
        digits,
        prefix,
        length: slot[LENGTH_AT],
        set: rule.set(),
    }
}

// Over a plan that is known to be sound.
pub fn rule_known(plan: SoundPlan, place: RulePlace) -> Result<ListedRule, Refusal>
    ensures { rule_given result ≡ rule_wanted (rule_at_place (some (plan_of plan.entry.memory.now)) place.0) }
{
    let rule = plan.rule(place).ok_or(Refusal::Range)?;
    Ok(held_at(rule))
}

// The rule at a place of the listing.
pub fn rule_at(plan: &[u8], place: RulePlace) -> Result<ListedRule, Refusal>
    ensures { ListedPromise plan.now place.0 result }
{
    let plan = examiner::examine(plan)?;
    rule_known(plan, place)
}
