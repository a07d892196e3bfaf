ghost use Rattle.dialing.specs.Dialing.{DialView, DialGives, Ends};

use environment::{Failed, Sink, Source};

/// Where connections are made.
pub trait Dial {
    type Reader: Source;

    type Writer: Sink;

    /// The connections that it gave, those to come, where it tells them, those that ended, and how often it failed.
    ghost seen: { Self → DialView Self.Reader Self.Writer };

    /// Connects to an address: a host, by number or by name, and a port. No read or write of a connection that it gives has failed
    /// yet.
    fn dial(&mut self, address: &str) -> Result<(Self::Reader, Self::Writer), Failed>
        ensures { DialGives Self.Reader.seen Self.Writer.seen result (seen self.old)
            (seen self.new) };

    /// Takes back a connection that is no longer used.
    fn end(&mut self, reader: Self::Reader, writer: Self::Writer)
        ensures { Ends (reader, writer) (seen self.old) (seen self.new) };
}
