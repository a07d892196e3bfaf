ghost use Rattle.std.specs.Prelude.{◌≡◌};
ghost use Rattle.listening.specs.Doors.{DoorView, Listens, NextGives};

use environment::{Failed, Sink, Source};

/// What comes next at a door.
#[derive(Drop)]
pub enum Next<I, O> {
    /// A connection: where its octets come in, and where they go out.
    Link(I, O),
    /// No connection will come any more.
    End,
    Failed,
}

/// Where connections come in.
pub trait Door {
    type Reader: Source;

    type Writer: Sink;

    /// The connections that it gave, those to come, where it tells them, and how often it failed.
    ghost seen: { Self → DoorView Self.Reader Self.Writer };

    /// Opens the door at an address.
    fn listen(&mut self, address: &str) -> Result<(), Failed>
        ensures { Listens result (seen self.old) (seen self.new) };

    /// Waits for the next connection. No read or write of one that it gives has failed yet.
    fn next(&mut self) -> Next<Self::Reader, Self::Writer>
        ensures { NextGives Self.Reader.seen Self.Writer.seen result (seen self.old)
            (seen self.new) };

    /// No connection comes in any more: who dials is refused. Those that it gave stay as they are.
    fn close(&mut self)
        ensures { seen self.new ≡ seen self.old };
}
