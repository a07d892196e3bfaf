//! Octets that come in and go out through a stream of the system.
ghost use Rattle.std.specs.Prelude.{◌≡◌, ◌≤◌, length, IfOk};
ghost use Rattle.environment.specs.Input.{unread_input};
ghost use Rattle.environment.specs.Output.{unwritten_output};

use environment::{Failed, InputRecord, OutputRecord, Sink, Source};
use std::io::{ErrorKind, Read, Write};
use std::marker::Model;

/// A stream from which octets come in. What it has given is recorded; what is left it can't tell.
#[derive(Drop)]
pub struct StreamSource<S> {
    stream: S,
    past: InputRecord,
}

impl<S> Model for StreamSource<S> {
    ghost use Rattle.std.specs.Prelude.{None};
    ghost use Rattle.environment.specs.Input.{Input};

    ghost Value = { Input };

    ghost view = { λ s. record s.past { left = None } };
}

impl<S: Read> StreamSource<S> {
    /// Nothing was read from it as yet.
    pub fn of(stream: S) -> StreamSource<S>
        ensures { result ≡ unread_input }
    {
        StreamSource {
            stream,
            past: InputRecord::unread(),
        }
    }
}

impl<S: Read> Source for StreamSource<S> {
    ghost seen = { λ s. s };

    fn read(&mut self, buffer: &mut [u8]) -> Result<usize, Failed> {
        match read_uninterrupted(&mut self.stream, buffer) {
            Ok(count) => {
                self.past.gave(count, buffer);
                Ok(count)
            }
            Err(_) => {
                self.past.failed();
                Err(Failed)
            }
        }
    }
}

/// A read that a signal interrupts is made again.
fn read_uninterrupted<S: Read>(stream: &mut S, buffer: &mut [u8]) -> Result<usize, Failed>
    ensures { IfOk result (λ count. count ≤ length buffer.new) }
{
    for _ in 0..u64::MAX {
        match stream.read(buffer) {
            Ok(count) => return Ok(count),
            Err(error) if error.kind() == ErrorKind::Interrupted => {}
            Err(_) => break,
        }
    }
    Err(Failed)
}

/// A stream to which octets go out. What it has taken is recorded.
#[derive(Drop)]
pub struct StreamSink<S> {
    stream: S,
    past: OutputRecord,
}

impl<S> Model for StreamSink<S> {
    ghost use Rattle.environment.specs.Output.{Output};

    ghost Value = { Output };

    ghost view = { λ s. s.past };
}

impl<S: Write> StreamSink<S> {
    /// Nothing was written to it as yet.
    pub fn of(stream: S) -> StreamSink<S>
        ensures { result ≡ unwritten_output }
    {
        StreamSink {
            stream,
            past: OutputRecord::unwritten(),
        }
    }
}

impl<S: Write> Sink for StreamSink<S> {
    ghost seen = { λ s. s };

    /// That nothing is taken of a piece that isn't empty is a fault.
    fn write(&mut self, piece: &[u8]) -> Result<usize, Failed> {
        match write_uninterrupted(&mut self.stream, piece) {
            Ok(count) if count > 0 || piece.is_empty() => {
                self.past.took(&piece[..count]);
                Ok(count)
            }
            _ => {
                self.past.failed();
                Err(Failed)
            }
        }
    }
}

/// A write that a signal interrupts is made again.
fn write_uninterrupted<S: Write>(stream: &mut S, piece: &[u8]) -> Result<usize, Failed>
    ensures { IfOk result (λ count. count ≤ length piece.now) }
{
    for _ in 0..u64::MAX {
        match stream.write(piece) {
            Ok(count) => return Ok(count),
            Err(error) if error.kind() == ErrorKind::Interrupted => {}
            Err(_) => break,
        }
    }
    Err(Failed)
}
