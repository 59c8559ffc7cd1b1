// Every example of the papers and manuals, and generated files of house records: the files 000, 001, .. in order until one is missing, each with a heading and
// the lines of its records, by the same loop as the program's. A write to a pipe that nobody reads ends the program.
#![tactic(auto)]

ghost use Rattle.std.specs.Prelude.{◌≤◌, ◌<◌};

use meaning::sizes::{LEDGER_NUMBERS, PRICES_BYTES, RUN_BYTES};
use std::fs::File;
use std::io::{ErrorKind, Result, Stdout, Write};
use std::os::fd::AsRawFd;
use std::process::ExitCode;

// What a shell says of a program that a write to a pipe that nobody reads has ended.
const BROKEN_PIPE: u8 = 141;

// Standard output, and whether a write came to a pipe that nobody reads.
#[derive(Drop)]
struct Lines {
    stdout: Stdout,
    closed: bool,
}

impl Write for Lines {
    fn write(&mut self, buf: &[u8]) -> Result<usize> {
        let answer = self.stdout.write(buf);
        if let Err(error) = answer {
            self.closed = error.kind() == ErrorKind::BrokenPipe;
        }
        answer
    }

    fn flush(&mut self) -> Result<()> {
        self.stdout.flush()
    }
}

// The digit of a number for its ones, its tens or its hundreds.
fn digit(n: usize, unit: usize) -> u8
    requires { 1 ≤ unit }
    ensures { result < 128 }
{
    b'0' + (n / unit % 10) as u8
}

// The lines of the records that a file gives.
fn run(file: &mut File, lines: &mut Lines) {
    let mut plan = [0u8; RUN_BYTES];
    let mut prices = [0u8; PRICES_BYTES];
    let mut districts = [0i64; LEDGER_NUMBERS];
    let mut input = [0u8; 65536];
    let mut output = [0u8; 65536];
    let from = file.as_raw_fd();
    let to = lines.stdout.as_raw_fd();
    stream::copy(
        file,
        lines,
        from,
        to,
        &mut plan,
        &mut prices,
        &mut districts,
        &mut input,
        &mut output,
    );
}

// The lines of file n, if it is there; whether the next is to follow.
fn run_file(rt: &HostRuntime, lines: &mut Lines, n: usize) -> bool {
    let name = [digit(n, 100), digit(n, 10), digit(n, 1)];
    let Ok(text) = str::from_utf8(&name) else {
        unreachable!();
    };
    let Ok(mut file) = File::open(rt, text) else {
        return false;
    };
    let _ = lines.write_all(b"# ");
    let _ = lines.write_all(&name);
    let _ = lines.write_all(b"\n");
    run(&mut file, lines);
    !lines.closed
}

fn main(rt: HostRuntime) -> ExitCode {
    let mut lines = Lines {
        stdout: rt.stdout(),
        closed: false,
    };
    let mut n: usize = 0;
    while n < 1000 && run_file(&rt, &mut lines, n) {
        n += 1;
    }
    if lines.closed {
        ExitCode::from(BROKEN_PIPE)
    } else {
        ExitCode::SUCCESS
    }
}
