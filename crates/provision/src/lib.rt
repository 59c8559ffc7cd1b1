// Opening a plan, and provisioning it: sets and rules added, changed and removed. The public calls, for any plan bytes and any body bytes, are the opening and the edits by name, all by
// one function, `carry_out`, with their kind.
#![tactic(auto)]

ghost use Rattle.std.specs.Prelude.{◌≡◌, length};
ghost use Rattle.std.proofs.Math.Option.{some};
ghost use Rattle.meaning.specs.Refusals.{first_of};
ghost use Rattle.meaning.specs.Calls.{open_plan, add_set, replace_set, remove_set, add_rule, change_rule, remove_rule, body_length, lacks_bytes, lines_of, made};
ghost use Rattle.meaning.specs.Answers.{edit_of, number_of_edit, number_of_provisioned};
ghost use Rattle.plan.specs.Layout.{plan_of};
ghost use Rattle.changes.specs.Promise.{memory_of, Provides, Carries, calls};
ghost use Rattle.changes.specs.Given.{KnownEdit};

use meaning::Refusal;
use meaning::kinds::{self, Edit, Kind};
use meaning::sizes::OPENING_BYTES;
use plan::SoundPlan;

// OVER A PLAN THAT IS KNOWN TO BE SOUND, with a body of just its length

// The refusal of an edit, by its own checks.
fn refusal_known(plan: SoundPlan, edit: Edit, body: &[u8]) -> Result<(), Refusal>
    requires { length body.now ≡ body_length (number_of_edit edit) }
    ensures { number_of_provisioned result ≡ first_of (lines_of (edit_of edit) (lacks_bytes (length plan.entry.memory.now)) (some (plan_of plan.entry.memory.now)) body.now) }
{
    match edit {
        Edit::AddSet => set_changes::add_set_refusal(plan, body),
        Edit::ReplaceSet => set_changes::replace_set_refusal(plan, body),
        Edit::RemoveSet => set_changes::remove_set_refusal(plan, body),
        Edit::AddRule => rule_changes::add_rule_refusal(plan, body),
        Edit::ChangeRule => rule_changes::change_rule_refusal(plan, body),
        Edit::RemoveRule => rule_changes::remove_rule_refusal(plan, body),
    }
}

// What an accepted edit makes.
fn make(plan: &mut [u8], edit: Edit, body: &[u8])
    requires known { KnownEdit plan.old edit body.now }
    requires accepted { first_of (lines_of (edit_of edit) (lacks_bytes (length plan.old)) (some (plan_of plan.old)) body.now) ≡ 0 }
    ensures { plan.new ≡ memory_of (made (edit_of edit) (some (plan_of plan.old)) body.now) plan.old }
{
    match edit {
        Edit::AddSet => set_changes::store_given(plan, body),
        Edit::ReplaceSet => set_changes::store_given(plan, body),
        Edit::RemoveSet => set_changes::clear_given(plan, body),
        Edit::AddRule => rule_changes::insert_given(plan, body),
        Edit::ChangeRule => rule_changes::rename_given(plan, body),
        Edit::RemoveRule => rule_changes::remove_given(plan, body),
    }
}

// An edit: refused, or made.
pub fn change_known(plan: &mut [u8], edit: Edit, body: &[u8]) -> Result<(), Refusal>
    requires { KnownEdit plan.old edit body.now }
    ensures { Provides (calls (edit_of edit) body.now) plan.old plan.new (number_of_provisioned result) }
{
    refusal_known(SoundPlan { memory: plan }, edit, body)?;
    make(plan, edit, body);
    Ok(())
}

// OVER ANY BYTES

// The opening: CUT, then the opening over any memory.
fn opening(plan: &mut [u8], body: &[u8]) -> Result<(), Refusal>
    ensures { Provides (calls open_plan body.now) plan.old plan.new (number_of_provisioned result) }
{
    if body.len() < OPENING_BYTES {
        return Err(Refusal::Cut);
    }
    set_changes::open_known(plan, &body[0..OPENING_BYTES])
}

// An edit: CUT, PLAN, then the edit over a known plan.
fn change(plan: &mut [u8], edit: Edit, body: &[u8]) -> Result<(), Refusal>
    ensures { Provides (calls (edit_of edit) body.now) plan.old plan.new (number_of_provisioned result) }
{
    let length = edit.body_length();
    if body.len() < length {
        return Err(Refusal::Cut);
    }
    if !examiner::sound(plan) {
        return Err(Refusal::Plan);
    }
    change_known(plan, edit, &body[0..length])
}

// The call of a kind; a byte that is no call's is refused with KIND.
pub fn carry_out(plan: &mut [u8], kind: u8, body: &[u8]) -> Result<(), Refusal>
    ensures { Carries kind body.now plan.old plan.new (number_of_provisioned result) }
{
    match Kind::try_from(kind) {
        Ok(Kind::Opening) => opening(plan, body),
        Ok(Kind::Edit(edit)) => change(plan, edit, body),
        Ok(Kind::Number) => Err(Refusal::Kind),
        Ok(Kind::Refs) => Err(Refusal::Kind),
        Ok(Kind::List) => Err(Refusal::Kind),
        Ok(Kind::Call) => Err(Refusal::Kind),
        Ok(Kind::Price) => Err(Refusal::Kind),
        Ok(Kind::Losses) => Err(Refusal::Kind),
        Err(_) => Err(Refusal::Kind),
    }
}

// Opens a plan over a memory, whatever it holds.
pub fn open(plan: &mut [u8], body: &[u8]) -> Result<(), Refusal>
    ensures { Provides (calls open_plan body.now) plan.old plan.new (number_of_provisioned result) }
{
    carry_out(plan, kinds::OPEN_PLAN, body)
}

// Adds a set.
pub fn add_set(plan: &mut [u8], body: &[u8]) -> Result<(), Refusal>
    ensures { Provides (calls add_set body.now) plan.old plan.new (number_of_provisioned result) }
{
    carry_out(plan, kinds::ADD_SET, body)
}

// Replaces the content of a set.
pub fn replace_set(plan: &mut [u8], body: &[u8]) -> Result<(), Refusal>
    ensures { Provides (calls replace_set body.now) plan.old plan.new (number_of_provisioned result) }
{
    carry_out(plan, kinds::REPLACE_SET, body)
}

// Removes a set that no rule names.
pub fn remove_set(plan: &mut [u8], body: &[u8]) -> Result<(), Refusal>
    ensures { Provides (calls remove_set body.now) plan.old plan.new (number_of_provisioned result) }
{
    carry_out(plan, kinds::REMOVE_SET, body)
}

// Adds a rule.
pub fn add_rule(plan: &mut [u8], body: &[u8]) -> Result<(), Refusal>
    ensures { Provides (calls add_rule body.now) plan.old plan.new (number_of_provisioned result) }
{
    carry_out(plan, kinds::ADD_RULE, body)
}

// Changes the set that a rule names.
pub fn change_rule(plan: &mut [u8], body: &[u8]) -> Result<(), Refusal>
    ensures { Provides (calls change_rule body.now) plan.old plan.new (number_of_provisioned result) }
{
    carry_out(plan, kinds::CHANGE_RULE, body)
}

// Removes a rule.
pub fn remove_rule(plan: &mut [u8], body: &[u8]) -> Result<(), Refusal>
    ensures { Provides (calls remove_rule body.now) plan.old plan.new (number_of_provisioned result) }
{
    carry_out(plan, kinds::REMOVE_RULE, body)
}
