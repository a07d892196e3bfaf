//! Replies that the program makes itself are sent to a sink that counts: how many octets went out in how many writes.
ghost use Rattle.std.specs.Prelude.{IfOk};
ghost use Rattle.h2_events.specs.Ports.{FitsMessage};

use crate::counter::Counter;
use crate::fault::Fault;
use base_lists::Bytes;
use h2_events::{Piece, RecvEvent, Took};
use h2_send::Wire;
use std::alloc::Global;
use std::io;

/// Which replies are sent.
#[derive(Clone, Copy, Debug)]
pub enum Case {
    /// Replies of 4 MiB.
    Large,
    /// Replies of 100 octets.
    Small,
}

pub const CASES: [Case; 2] = [Case::Large, Case::Small];

const LARGEST_WINDOW: u32 = 2_147_483_647;

const FIRST_WINDOW: u32 = 65_535;

impl Case {
    pub fn named(name: &str) -> Option<Case> {
        CASES.iter().copied().find(|case| case.name() == name)
    }

    pub fn name(self) -> &'static str {
        match self {
            Case::Large => "large",
            Case::Small => "small",
        }
    }

    /// How many octets one of its replies has.
    fn octets(self) -> u32 {
        match self {
            Case::Large => 4_194_304,
            Case::Small => 100,
        }
    }

    /// Sends so many replies, each on a stream of its own, through windows that are wide enough.
    pub fn run(self, alloc: Global, replies: u32) -> Result<Counter, Fault> {
        let mut wire = Wire::make(alloc, Counter::new());
        wire.greet()?;
        wire.act(alloc, &RecvEvent::Settings(LARGEST_WINDOW, false))?;
        for number in 0..replies {
            let stream = number.saturating_mul(2).saturating_add(1);
            reply(alloc, stream, self.octets(), &mut wire)?;
        }
        Ok(wire.give())
    }
}

fn message(alloc: Global, octets: u32) -> Result<Piece, Fault>
    ensures { IfOk result (λ piece. FitsMessage piece) }
{
    let Ok(octets) = vec![in alloc; 7u8; octets as usize] else {
        return Err(Fault::NoMemory);
    };
    if octets.len() <= 4_194_304 {
        Ok(Piece::Message(Bytes::from_vec(octets)))
    } else {
        Err(Fault::NoMemory)
    }
}

// A client's call is answered with one message, and granted what was sent.
fn reply(alloc: Global, stream: u32, octets: u32, wire: &mut Wire<Counter>) -> Result<(), Fault> {
    wire.act(alloc, &RecvEvent::TooLong(stream))?;
    if stream == 1 {
        wire.act(alloc, &RecvEvent::Window(0, LARGEST_WINDOW - FIRST_WINDOW))?;
    }
    let message = message(alloc, octets)?;
    if wire.say(alloc, stream, &message) != Took::Taken {
        return Err(Fault::Refused);
    }
    if wire.say(alloc, stream, &Piece::Finish(None)) != Took::Taken {
        return Err(Fault::Refused);
    }
    wire.act(alloc, &RecvEvent::Window(0, octets.saturating_add(5)))?;
    Ok(())
}

/// Runs a case, and prints what it did.
pub fn print_case(alloc: Global, rt: &impl Print, case: Case, replies: u32) -> io::Result<()> {
    let sent = case.run(alloc, replies)?;
    let name = case.name();
    let octets = sent.octets();
    let writes = sent.writes();
    println!(rt; "{name}: {replies} replies, {octets} octets in {writes} writes")
}
