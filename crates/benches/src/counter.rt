use environment::{Failed, OutputRecord, Sink};

/// A sink that counts what it takes, and keeps none of it.
#[derive(Drop)]
pub struct Counter {
    octets: u64,
    writes: u64,
    output: OutputRecord,
}

impl Counter {
    pub fn new() -> Counter {
        Counter {
            octets: 0,
            writes: 0,
            output: OutputRecord::unwritten(),
        }
    }

    /// How many octets were taken.
    pub fn octets(&self) -> u64 {
        self.octets
    }

    /// In how many writes.
    pub fn writes(&self) -> u64 {
        self.writes
    }
}

impl Sink for Counter {
    ghost seen = { λ c. c.output };

    fn write(&mut self, piece: &[u8]) -> Result<usize, Failed> {
        self.octets = self.octets.saturating_add(piece.len() as u64);
        self.writes = self.writes.saturating_add(1);
        self.output.took(piece);
        Ok(piece.len())
    }
}
