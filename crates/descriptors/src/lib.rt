// Where the program's loop meets the system: `fill` reads behind what is left of the input, `write` writes the front of the output, and no other function of the loop
// calls it. What they moved is counted in a source and a sink, whose fields are private: another crate has them from `new`, `fill` and `write` alone. They can be
// copied, so that each answer is handed on is read where the two are called.
#![tactic(auto)]

ghost use Rattle.std.specs.Prelude.{◌≡◌, ◌+◌, ◌≤◌, length};
ghost use Rattle.descriptors.specs.Moves.{MOST, new_source, at_hand, Fillable, FillPromise, new_sink, sent, Writable, WritePromise};

use std::io::{Read, Write};

// A descriptor that is read: how many bytes it gave, whether it has come to its end, and whether a read failed.
#[derive(Clone, Copy)]
pub struct Source {
    fd: i32,
    given: u64,
    ended: bool,
    failed: bool,
}

// A descriptor that is written: how many bytes it took in writes that did not fail, and whether one failed.
#[derive(Clone, Copy)]
pub struct Sink {
    fd: i32,
    written: u64,
    failed: bool,
}

// How many bytes are at hand at the front of the input, and the source that they came from.
#[derive(Clone, Copy)]
pub struct AtHand {
    pub end: usize,
    pub source: Source,
}

impl Source {
    pub fn new(fd: i32) -> Source
        ensures { result ≡ new_source fd }
    {
        Source {
            fd: fd,
            given: 0,
            ended: false,
            failed: false,
        }
    }

    pub fn given(self) -> u64
        ensures { result ≡ self.given }
    {
        self.given
    }

    pub fn ended(self) -> bool
        ensures { result ≡ self.ended }
    {
        self.ended
    }

    pub fn failed(self) -> bool
        ensures { result ≡ self.failed }
    {
        self.failed
    }
}

impl Sink {
    pub fn new(fd: i32) -> Sink
        ensures { result ≡ new_sink fd }
    {
        Sink {
            fd: fd,
            written: 0,
            failed: false,
        }
    }

    pub fn failed(self) -> bool
        ensures { result ≡ self.failed }
    {
        self.failed
    }
}

// READING

// What is at hand when a read into a part of the input, behind what is left, was answered with `got`.
fn at_hand(source: Source, have: usize, got: isize, part: &[u8]) -> AtHand
    requires { (have + length part.now ≤ MOST) × (source.given + length part.now ≤ MOST) }
    ensures { result ≡ at_hand source have (length part.now) got }
{
    let mut now = source;
    if got < 0 {
        now.failed = true;
        return AtHand {
            end: have,
            source: now,
        };
    }
    let n = io::count(got, part);
    now.given += n as u64;
    now.ended = n == 0;
    now.failed = false;
    AtHand {
        end: have + n,
        source: now,
    }
}

// One read behind what is left of the input. A reader that fails answers below 0, as the system does.
pub fn fill<R: Read>(reader: &mut R, source: Source, have: usize, input: &mut [u8]) -> AtHand
    requires { Fillable source have input.old }
    ensures { FillPromise source have input.old input.new result }
{
    let got = match reader.read(&mut input[have..]) {
        Ok(n) => n as isize,
        Err(_) => -1,
    };
    at_hand(source, have, got, &input[have..])
}

// WRITING

// What became of a text that was written, or was not.
fn after_write(sink: Sink, n: usize, done: bool) -> Sink
    requires { sink.written + n ≤ MOST }
    ensures { result ≡ sent sink n done }
{
    let mut now = sink;
    now.failed = !done;
    if done {
        now.written += n as u64;
    }
    now
}

// Writes a text: the front of the output, so many bytes of it and nothing else.
pub fn write<W: Write>(writer: &mut W, sink: Sink, text: &[u8], n: usize, output: &[u8]) -> Sink
    requires { Writable sink n text.now output.now }
    ensures { WritePromise sink n result }
{
    let done = writer.write_all(text).is_ok();
    after_write(sink, n, done)
}
