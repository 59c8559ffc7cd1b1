// The program: house records from the file that its one argument names, or from standard input, and their lines to standard output. A file that cannot be
// opened, a read or a write that fails, or a file that is too long, is named on standard error; a write to a pipe that nobody reads ends the program.
#![tactic(auto)]

mod told;

use meaning::sizes::{LEDGER_NUMBERS, PRICES_BYTES, RUN_BYTES};
use std::env::FillError;
use std::fmt::InlineText;
use std::fs::File;
use std::io::{Error, ErrorKind, Read, Result, Write};
use std::os::fd::{AsRawFd, RawFd};
use std::process::ExitCode;
use std::rt::Env;
use stream::Turned;
use told::Told;

// The system's numbers of two errors that are found here: a name that is too long, and one that is no text.
const NAME_TOO_LONG: i32 = 36;

const NO_TEXT: i32 = 84;

// What a shell says of a program that a write to a pipe that nobody reads has ended.
const BROKEN_PIPE: u8 = 141;

// The words of an error of the system's, without the number that stands behind them.
fn words(text: &str) -> &str {
    match text.split_once(" (os error ") {
        Some((words, _)) => words,
        None => text,
    }
}

// Names what failed, and why.
fn fail(rt: &HostRuntime, what: &[u8], error: Error) -> Result<()> {
    let text = InlineText::<128>::of(error);
    let mut stderr = rt.stderr();
    stderr.write_all(what)?;
    stderr.write_all(b": ")?;
    stderr.write_all(words(text.as_str()).as_bytes())?;
    stderr.write_all(b"\n")
}

// Names what failed of a copy.
fn report(
    rt: &HostRuntime,
    turned: Turned,
    name: &[u8],
    read: Error,
    written: Error,
) -> Result<()> {
    match turned {
        // never the answer of a copy
        Turned::Goes(_) => Ok(()),
        Turned::Done(_) => Ok(()),
        Turned::NotRead(_) => fail(rt, name, read),
        Turned::NotWritten(_) if written.kind() == ErrorKind::BrokenPipe => Err(written),
        Turned::NotWritten(_) => fail(rt, b"standard output", written),
        Turned::Spent(_) => rt.stderr().write_all(b"npp: the file is too long\n"),
    }
}

// The lines of the records that a descriptor gives.
fn run<R: Read + Drop>(rt: &HostRuntime, reader: R, from: RawFd, name: &[u8]) -> Result<()> {
    let mut plan = [0u8; RUN_BYTES];
    let mut prices = [0u8; PRICES_BYTES];
    let mut districts = [0i64; LEDGER_NUMBERS];
    let mut input = [0u8; 65536];
    let mut output = [0u8; 65536];
    let to = rt.stdout().as_raw_fd();
    let mut reader = Told::new(reader);
    let mut writer = Told::new(rt.stdout());
    let turned = stream::copy(
        &mut reader,
        &mut writer,
        from,
        to,
        &mut plan,
        &mut prices,
        &mut districts,
        &mut input,
        &mut output,
    );
    report(rt, turned, name, reader.error(), writer.error())
}

// The lines of the records of a file.
fn run_file(rt: &HostRuntime, path: &[u8]) -> Result<()> {
    let Ok(text) = str::from_utf8(path) else {
        return fail(rt, path, Error::from_raw_os_error(NO_TEXT));
    };
    match File::open(rt, text) {
        Ok(file) => {
            let from = file.as_raw_fd();
            run(rt, file, from, path)
        }
        Err(error) => fail(rt, path, error),
    }
}

// What the arguments ask for. An error is that of the write that ends the program.
fn run_arguments(rt: &HostRuntime) -> Result<()> {
    let mut path = [0u8; 4096];
    match rt.arg(2, &mut path) {
        Err(FillError::NotPresent) => {}
        _ => return rt.stderr().write_all(b"usage: npp [FILE]\n"),
    }
    match rt.arg(1, &mut path) {
        Ok(n) => run_file(rt, &path[..n]),
        Err(FillError::NotPresent) => {
            run(rt, rt.stdin(), rt.stdin().as_raw_fd(), b"standard input")
        }
        Err(FillError::TooLong) => fail(
            rt,
            b"the file's name",
            Error::from_raw_os_error(NAME_TOO_LONG),
        ),
    }
}

fn main(rt: HostRuntime) -> ExitCode {
    match run_arguments(&rt) {
        Err(error) if error.kind() == ErrorKind::BrokenPipe => ExitCode::from(BROKEN_PIPE),
        _ => ExitCode::SUCCESS,
    }
}
