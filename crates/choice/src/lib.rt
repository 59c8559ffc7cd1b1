// The rule chosen for a number over a sound plan.
#![tactic(auto)]

ghost use Rattle.std.specs.Prelude.{◌≡◌, IfSome, option_map};
ghost use Rattle.plan.specs.declared.HeldRule.{HeldRule};
ghost use Rattle.choice.specs.Chosen.{ChoicePromise};

use plan::{HeldRule, SoundPlan};

// The rule for a number.
pub fn choose<'a>(plan: SoundPlan<'a>, class: u8, digits: &[u8]) -> Option<HeldRule<'a>>
    ensures place { ChoicePromise plan.entry.memory.now class digits.now (option_map (λ (rule : HeldRule). rule.place) result) }
    ensures plan { IfSome result (λ (rule : HeldRule). rule.plan.memory.now ≡ plan.entry.memory.now) }
{
    let place = narrowing::choose(plan.rules(), plan.rule_count(), class, digits)?;
    Some(HeldRule { plan, place })
}
