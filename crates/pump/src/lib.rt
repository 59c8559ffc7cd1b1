// Steps over the input at hand, one behind the other, until none can be taken.
#![tactic(auto)]

ghost use Rattle.std.specs.Prelude.{◌≡◌};
ghost use Rattle.record.specs.Promises.{lent, InHouse};
ghost use Rattle.pump.specs.Pumps.{pumped_as, PumpPromise};

use meaning::Refusal;
use meaning::sizes::LEDGER_NUMBERS;
use record::{Run, Stepped};

// Why no step more can be taken.
#[derive(Clone, Copy)]
pub enum Stop {
    // the input holds no whole record any more
    Wants,
    // the output has no room for a line
    Full,
    // reading has ended, with the refusal that the last line writes, or none
    Over(Option<Refusal>),
}

// What the steps over the input at hand did: how many bytes they took and wrote, the state behind them, and why they stopped.
#[derive(Clone, Copy)]
pub struct Pumped {
    pub taken: usize,
    pub written: usize,
    pub run: Run,
    pub stop: Stop,
}

fn stopped(taken: usize, written: usize, run: Run, stop: Stop) -> Pumped
    ensures { result ≡ pumped_as taken written run stop }
{
    Pumped {
        taken,
        written,
        run,
        stop,
    }
}

// Takes steps over the input at hand until none can be taken.
pub fn pump(
    plan: &mut [u8],
    prices: &mut [u8],
    districts: &mut [i64; LEDGER_NUMBERS],
    run: Run,
    ended: bool,
    input: &[u8],
    output: &mut [u8],
) -> Pumped
    requires { InHouse (lent plan.old prices.old districts.old run.whole) run.opened }
    ensures { PumpPromise (lent plan.old prices.old districts.old run.whole) run ended input.now output.old (lent plan.new prices.new districts.new result.run.whole) output.new result }
{
    let mut now = run;
    let mut at: usize = 0;
    let mut end: usize = 0;
    while end <= output.len() {
        match record::step_known(
            plan,
            prices,
            districts,
            now,
            ended,
            &input[at..],
            &mut output[end..],
        ) {
            Stepped::Wrote(line) => {
                at += line.taken;
                end += line.written;
                now = line.run;
            }
            Stepped::Wants => return stopped(at, end, now, Stop::Wants),
            Stepped::Full => return stopped(at, end, now, Stop::Full),
            Stepped::Ends(last) => {
                return stopped(at, end + last.written, now, Stop::Over(last.refusal))
            }
        }
    }
    stopped(at, end, now, Stop::Wants)
}
