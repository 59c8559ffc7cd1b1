// A list of calls on one plan memory, run: demand 3 speaks of every such list.
#![tactic(auto)]

ghost use Rattle.std.specs.Prelude.{◌≡◌, ◌≤◌, drop};
ghost use Rattle.history.specs.Replays.{Replays};
ghost use Rattle.history.specs.Parts.{begins_whole};

use meaning::{answer_number, kinds};

// Whether a whole record of a call begins at `at`.
fn is_whole(calls: &[u8], at: usize) -> bool
    ensures { result ≡ begins_whole (drop at calls.now) }
{
    if calls.len() <= at {
        return false;
    }
    let kind = calls[at];
    let body = at + 1;
    kinds::is_call(kind) && kinds::body_length(kind) <= calls.len() - body
}

// Runs the calls that a list of house records holds, on one plan memory, and writes the number of each. It ends before the first byte that is no kind of a
// call, before the first record that is cut, and where `numbers` is full.
pub fn replay(plan: &mut [u8], calls: &[u8], numbers: &mut [u8]) -> usize
    ensures { Replays plan.old calls.now numbers.old plan.new numbers.new result }
{
    let mut at: usize = 0;
    for done in 0..numbers.len() {
        if !is_whole(calls, at) {
            return done;
        }
        let kind = calls[at];
        let body = at + 1;
        let end = body + kinds::body_length(kind);
        numbers[done] = answer_number(provision::carry_out(plan, kind, &calls[body..end]));
        at = end;
    }
    numbers.len()
}
