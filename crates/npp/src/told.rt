// What the system said of a call that failed. A copy says only that one failed.
ghost use Rattle.std.specs.Prelude.{◌≡◌, IfErr};
ghost use Rattle.std.specs.Io.{ReadsAtMost, WritesAtMost};
ghost use Rattle.std.specs.Io.KnownBytes.{Keeps, ReadConsumes, WriteAppends};

use std::io::{Error, Read, Result, Write};

// A reader or a writer, and the error of its last call that failed; before one fails, that of the system's number 0.
#[derive(Drop)]
pub struct Told<T> {
    inner: T,
    error: Error,
}

impl<T> Told<T> {
    pub fn new(inner: T) -> Told<T>
        ensures { result.inner ≡ inner }
    {
        Told {
            inner: inner,
            error: Error::from_raw_os_error(0),
        }
    }

    pub fn error(&self) -> Error
        ensures { result ≡ self.now.error }
    {
        self.error
    }
}

// Each call is handed on, and its answer handed back.

impl<R: Read> Read for Told<R> {
    ghost remaining = { λ t. R.remaining t.inner };

    fn read(&mut self, buf: &mut [u8]) -> Result<usize>
        ensures bound { ReadsAtMost result buf.new }
        ensures bytes { ReadConsumes (R.remaining self.old.inner) (R.remaining self.new.inner) result buf.new }
        ensures told { IfErr result (λ error. self.new.error ≡ error) }
    {
        let answer = self.inner.read(buf);
        if let Err(error) = answer {
            self.error = error;
        }
        answer
    }
}

impl<W: Write> Write for Told<W> {
    ghost contents = { λ t. W.contents t.inner };

    fn write(&mut self, buf: &[u8]) -> Result<usize>
        ensures bound { WritesAtMost result buf.now }
        ensures bytes { WriteAppends (W.contents self.old.inner) (W.contents self.new.inner) result buf.now }
        ensures told { IfErr result (λ error. self.new.error ≡ error) }
    {
        let answer = self.inner.write(buf);
        if let Err(error) = answer {
            self.error = error;
        }
        answer
    }

    fn flush(&mut self) -> Result<()>
        ensures bytes { Keeps (W.contents self.old.inner) (W.contents self.new.inner) }
        ensures told { IfErr result (λ error. self.new.error ≡ error) }
    {
        let answer = self.inner.flush();
        if let Err(error) = answer {
            self.error = error;
        }
        answer
    }
}
