//! The environment of a connection: a source that gives pieces of a size.
ghost use Rattle.std.specs.Prelude.{◌<◌};
ghost use Rattle.environment.specs.Memory.{input_of};

use environment::{Failed, MemSource, Source};

/// A source that gives so many octets at a time.
#[derive(Drop)]
pub(crate) struct Pieces {
    pub(crate) source: MemSource,
    pub(crate) size: usize,
    ghost some: { 0 < size },
}

impl Source for Pieces {
    ghost seen = { λ p. input_of p.source };

    fn read(&mut self, buffer: &mut [u8]) -> Result<usize, Failed> {
        if buffer.is_empty() {
            return Ok(0);
        }
        let size = self.size.min(buffer.len());
        self.source.read(&mut buffer[..size])
    }
}
