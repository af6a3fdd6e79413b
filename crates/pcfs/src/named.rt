//! Streams of the system whose errors are said on the standard error.

use std::io::{self, Eprint, Read, Write};

/// A stream, and the name under which its errors are said.
#[derive(Drop)]
pub struct Named<'a, R, S> {
    rt: &'a R,
    name: &'a str,
    stream: S,
}

impl<'a, R, S> Named<'a, R, S> {
    /// The stream under this name.
    pub fn new(rt: &'a R, name: &'a str, stream: S) -> Self {
        Named { rt, name, stream }
    }
}

// Says an error, if there was one, under a name. A line that cannot be written is dropped.
fn write_error<R: Eprint, T>(rt: &R, name: &str, done: &io::Result<T>) {
    if let Err(error) = done {
        let _ = eprintln!(rt; "{name}: {error}");
    }
}

impl<'a, R: Eprint, S: Read> Read for Named<'a, R, S> {
    fn read(&mut self, buf: &mut [u8]) -> io::Result<usize> {
        let done = self.stream.read(buf);
        write_error(self.rt, self.name, &done);
        done
    }
}

impl<'a, R: Eprint, S: Write> Write for Named<'a, R, S> {
    fn write(&mut self, buf: &[u8]) -> io::Result<usize> {
        let done = self.stream.write(buf);
        write_error(self.rt, self.name, &done);
        done
    }

    fn flush(&mut self) -> io::Result<()> {
        self.stream.flush()
    }
}
