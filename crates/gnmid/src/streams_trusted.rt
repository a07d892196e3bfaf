ghost use Rattle.std.specs.Prelude.{◌≤◌, None, length, IfOk};

use environment::{Failed, InputRecord, OutputRecord, Sink, Source};
use std::io::{ErrorKind, Read, Stdin, Stdout, Write};

/// The process's standard input. What it has given is recorded; what is left it can't tell.
#[derive(Drop)]
pub struct StandardInput {
    stream: Stdin,
    past: InputRecord,
}

impl StandardInput {
    pub fn of(rt: &HostRuntime) -> StandardInput {
        StandardInput {
            stream: rt.stdin(),
            past: InputRecord::unread(),
        }
    }
}

impl Source for StandardInput {
    ghost seen = { λ s. record s.past { left = None } };

    fn read(&mut self, buffer: &mut [u8]) -> Result<usize, Failed> {
        match read_uninterrupted(&mut self.stream, buffer) {
            Ok(count) => {
                self.past.gave(count, buffer);
                Ok(count)
            }
            Err(_) => {
                self.past.failed();
                Err(Failed)
            }
        }
    }
}

/// A read that a signal interrupts is made again.
fn read_uninterrupted(stream: &mut Stdin, buffer: &mut [u8]) -> Result<usize, Failed>
    ensures { IfOk result (λ count. count ≤ length buffer.new) }
{
    for _ in 0..u64::MAX {
        match stream.read(buffer) {
            Ok(count) => return Ok(count),
            Err(error) if error.kind() == ErrorKind::Interrupted => {}
            Err(_) => break,
        }
    }
    Err(Failed)
}

/// The process's standard output. What it has taken is recorded.
#[derive(Drop)]
pub struct StandardOutput {
    stream: Stdout,
    past: OutputRecord,
}

impl StandardOutput {
    pub fn of(rt: &HostRuntime) -> StandardOutput {
        StandardOutput {
            stream: rt.stdout(),
            past: OutputRecord::unwritten(),
        }
    }
}

impl Sink for StandardOutput {
    ghost seen = { λ s. s.past };

    /// That nothing is taken of a piece that isn't empty is a fault.
    fn write(&mut self, piece: &[u8]) -> Result<usize, Failed> {
        match write_uninterrupted(&mut self.stream, piece) {
            Ok(count) if count > 0 || piece.is_empty() => {
                self.past.took(&piece[..count]);
                Ok(count)
            }
            _ => {
                self.past.failed();
                Err(Failed)
            }
        }
    }
}

/// A write that a signal interrupts is made again.
fn write_uninterrupted(stream: &mut Stdout, piece: &[u8]) -> Result<usize, Failed>
    ensures { IfOk result (λ count. count ≤ length piece.now) }
{
    for _ in 0..u64::MAX {
        match stream.write(piece) {
            Ok(count) => return Ok(count),
            Err(error) if error.kind() == ErrorKind::Interrupted => {}
            Err(_) => break,
        }
    }
    Err(Failed)
}
