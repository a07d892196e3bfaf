ghost use Rattle.environment.specs.Input.{Input, ReadGives};
ghost use Rattle.environment.specs.Output.{Output, WriteTakes};

/// An object of the environment failed in this call, and has counted it.
#[derive(Clone, Copy, Debug, PartialEq, Eq)]
pub struct Failed;

/// Octets that come in, as from a file, a socket or a terminal.
pub trait Source {
    /// What its reads have given so far, and how often they failed.
    ghost seen: { Self → Input };

    /// Reads some of the octets that are left into the front of the buffer, and answers how many.
    /// Into a buffer that isn't empty it answers 0 exactly at the end.
    fn read(&mut self, buffer: &mut [u8]) -> Result<usize, Failed>
        ensures { ReadGives result buffer.new (seen self.old) (seen self.new) };
}

/// Where octets go out.
pub trait Sink {
    /// What its writes have taken so far, and how often they failed.
    ghost seen: { Self → Output };

    /// Writes a front of the piece, and answers how long it is: at least one octet, unless the piece is empty.
    fn write(&mut self, piece: &[u8]) -> Result<usize, Failed>
        ensures { WriteTakes result piece.now (seen self.old) (seen self.new) };
}
