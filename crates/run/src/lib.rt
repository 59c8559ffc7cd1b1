// Opening and provisioning in a run of the program, which holds its plan alone and knows whether it is sound: nothing is examined.
#![tactic(auto)]

ghost use Rattle.std.specs.Prelude.{◌≡◌, true, ◌≤◌, length};
ghost use Rattle.meaning.specs.Sizes.{OPENING-BYTES, RUN-BYTES};
ghost use Rattle.meaning.specs.Calls.{open_plan, body_length};
ghost use Rattle.meaning.specs.Answers.{edit_of, number_of_edit, number_of_provisioned};
ghost use Rattle.changes.specs.Promise.{calls};
ghost use Rattle.run.specs.Runs.{InRun, RunProvides};

use meaning::Refusal;
use meaning::kinds::Edit;
use meaning::sizes::{RUN_RULES, RUN_SETS};

// Opens a plan: RANGE, then ROOM by each room.
pub fn open(plan: &mut [u8], body: &[u8]) -> Result<(), Refusal>
    requires { (length body.now ≡ OPENING-BYTES) × (RUN-BYTES ≤ length plan.old) }
    ensures { RunProvides (calls open_plan body.now) plan.old plan.new (number_of_provisioned result) }
{
    if RUN_SETS < buffer::word(body, 0) || RUN_RULES < buffer::word(body, 2) {
        // no memory of 0 bytes has room
        return set_changes::opening_refusal(0, body);
    }
    set_changes::open_known(plan, body)
}

// An edit.
pub fn change(plan: &mut [u8], opened: bool, edit: Edit, body: &[u8]) -> Result<(), Refusal>
    requires { InRun plan.old opened × (length body.now ≡ body_length (number_of_edit edit)) }
    ensures { RunProvides (calls (edit_of edit) body.now) plan.old plan.new (number_of_provisioned result) }
{
    if !opened {
        return Err(Refusal::Plan);
    }
    provision::change_known(plan, edit, body)
}
