//! The program over objects in memory: a schema in the file S, a journal on the disk J, an input and an output. It is run in one
//! place, since each call of `run` owes that what it is handed may cross threads.
ghost use Rattle.environment.specs.Memory.{input_of};

use base_lists::{Bytes, Seq, Text};
use environment::{Failed, IdlePacer, MemSink, MemSource, MemStarter, Sink, Source, StepClock};
use listening::MemDoor;
use memory_disks::{FuseDisk, NO_STOP};
use program::{DiskFile, Host, Kit, MemFiles, RunEnd, run};
use session_core::How;
use std::alloc::Global;
use std::collections::VecDeque;
use std::process::Abort;
use std::sync::Wait;
use std::thread::Threads;
use test_builders::decimals;

/// A source that counts its reads, and may give one octet at a time.
#[derive(Drop)]
struct CountingSource {
    source: MemSource,
    by_octets: bool,
    reads: u64,
}

impl Source for CountingSource {
    ghost seen = { λ c. input_of c.source };

    fn read(&mut self, buffer: &mut [u8]) -> Result<usize, Failed> {
        self.reads = self.reads.saturating_add(1);
        if self.by_octets && !buffer.is_empty() {
            return self.source.read(&mut buffer[..1]);
        }
        self.source.read(buffer)
    }
}

/// A sink that may take one octet at a time.
#[derive(Drop)]
struct SlowSink {
    sink: MemSink,
    by_octets: bool,
}

impl Sink for SlowSink {
    ghost seen = { λ s. s.sink.seen };

    fn write(&mut self, piece: &[u8]) -> Result<usize, Failed> {
        if self.by_octets && !piece.is_empty() {
            return self.sink.write(&piece[..1]);
        }
        self.sink.write(piece)
    }
}

struct MemKit;

impl Kit for MemKit {
    type Files = MemFiles;

    type Input = CountingSource;

    type Output = SlowSink;

    type Door = MemDoor;

    type Clock = StepClock;

    type Pacer = IdlePacer;
}

/// What a run is handed.
#[derive(Clone, Copy)]
pub(crate) struct Given<'a> {
    /// The text of the file S; none where it can't be read.
    pub(crate) schema: Option<&'a [u8]>,
    /// What the disk J holds.
    pub(crate) journal: &'a [u8],
    /// After how many calls the disk stops.
    pub(crate) passes: u64,
    pub(crate) input: &'a [u8],
    /// The numbers of the reads of the input and of the writes of the output that fail, from 1.
    pub(crate) bad_reads: &'a [u64],
    pub(crate) bad_writes: &'a [u64],
    /// Whether the input gives, and the output takes, one octet at a time.
    pub(crate) by_octets: bool,
    /// The readings of the clock, the last of which it goes on giving.
    pub(crate) readings: &'a [u64],
}

/// No schema, an empty disk, no input, a clock without readings, and nothing fails.
pub(crate) const NOTHING: Given<'static> = Given {
    schema: None,
    journal: b"",
    passes: NO_STOP,
    input: b"",
    bad_reads: &[],
    bad_writes: &[],
    by_octets: false,
    readings: &[],
};

/// How a run ended.
#[derive(Drop)]
pub(crate) struct End {
    pub(crate) status: u8,
    /// How the connection of a session ended.
    pub(crate) how: Option<How>,
    pub(crate) output: MemSink,
    /// How often a text of a file couldn't be read.
    pub(crate) file_faults: u64,
    /// How often the input was read.
    pub(crate) reads: u64,
    pub(crate) disk: Option<FuseDisk>,
}

fn octets_of(rt: &impl Abort, alloc: Global, octets: &[u8]) -> Bytes {
    Bytes::of(alloc, octets).expect(rt, "memory")
}

/// The words, which are separated by a space.
fn words_of(rt: &impl Abort, alloc: Global, words: &str) -> Vec<String> {
    let mut list = Vec::new(alloc);
    for word in words.split_whitespace() {
        let word = String::from_str(alloc, word).expect(rt, "memory");
        list.push(word).expect(rt, "memory");
    }
    list
}

fn files_of(rt: &impl Abort, alloc: Global, given: &Given<'_>) -> MemFiles {
    let disk = DiskFile {
        alloc,
        name: Text::of(alloc, b"J").expect(rt, "a text"),
        octets: octets_of(rt, alloc, given.journal),
        passes: given.passes,
    };
    let schema = match given.schema {
        Some(text) => Some(octets_of(rt, alloc, text)),
        None => None,
    };
    let name = Text::of(alloc, b"S").expect(rt, "a text");
    MemFiles::of(name, schema, Some(disk))
}

fn clock_of(rt: &impl Abort, alloc: Global, readings: &[u64]) -> StepClock {
    StepClock::make(Seq::of(alloc, readings).expect(rt, "memory"))
}

fn host_of(rt: &impl Abort, alloc: Global, given: &Given<'_>) -> Host<MemKit> {
    let input = octets_of(rt, alloc, given.input);
    Host {
        files: files_of(rt, alloc, given),
        input: CountingSource {
            source: MemSource::make(input, decimals(alloc, given.bad_reads).expect(rt, "memory")),
            by_octets: given.by_octets,
            reads: 0,
        },
        output: SlowSink {
            sink: MemSink::make(
                alloc,
                decimals(alloc, given.bad_writes).expect(rt, "memory"),
            ),
            by_octets: given.by_octets,
        },
        door: MemDoor::make(VecDeque::new(alloc)),
        clock: clock_of(rt, alloc, given.readings),
        pacer: IdlePacer,
    }
}

/// A run with these words.
pub(crate) fn run_with<A: Abort + Threads + Wait + Copy + Drop + Send + Sync + 'static>(
    rt: &A,
    alloc: Global,
    words: &str,
    given: &Given<'_>,
) -> End {
    let words = words_of(rt, alloc, words);
    let host = host_of(rt, alloc, given);
    let RunEnd {
        status,
        host,
        how,
        disk,
        ..
    } = run(rt, alloc, words.as_slice(), &MemStarter::make(0), host);
    let Host {
        files,
        input,
        output,
        ..
    } = host;
    let SlowSink { sink, .. } = output;
    End {
        status,
        how,
        output: sink,
        file_faults: files.faults(),
        reads: input.reads,
        disk,
    }
}
