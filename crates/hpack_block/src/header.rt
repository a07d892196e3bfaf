ghost use Rattle.std.specs.Prelude.{◌≡◌, IfOk};
ghost use Rattle.hpack_block.specs.StaticTable.{pair};

use base_lists::{Bytes, Copied, NoMemory, Seq};
use std::alloc::Global;

/// A header: a pair of a name and a value.
#[derive(Drop)]
pub struct Header {
    pub name: Bytes,
    pub value: Bytes,
}

/// Headers, in their order in the block.
pub type Headers = Seq<Header>;

#[derive(Clone, Copy, Debug, PartialEq, Eq)]
pub enum BlockFault {
    /// The octets aren't a header block that the table gives headers of. The decoder reads no further one.
    Bad,
    /// The list of headers is larger than 16,384 octets (RFC 9113 section 6.5.2). The decoder goes on.
    TooLong,
    /// The decoder reads no further block.
    NoMemory,
}

/// Why a decoder reads no further blocks.
#[derive(Clone, Copy)]
pub enum Ended {
    Bad,
    NoMemory,
}

impl From<Ended> for BlockFault {
    ghost use Rattle.hpack_block.specs.Answers.{fault_of};

    ghost from_gives = { λ end fault. fault ≡ fault_of end };

    fn from(end: Ended) -> BlockFault {
        match end {
            Ended::Bad => BlockFault::Bad,
            Ended::NoMemory => BlockFault::NoMemory,
        }
    }
}

impl From<NoMemory> for Ended {
    ghost use Rattle.hpack_block.specs.declared.header.Ended.TheVariants.{NoMemory as OutOfMemory};

    ghost from_gives = { λ _ end. end ≡ OutOfMemory };

    fn from(_fault: NoMemory) -> Ended {
        Ended::NoMemory
    }
}

impl Copied for Header {
    fn copy(&self, alloc: Global) -> Result<Header, NoMemory> {
        header_of(alloc, self.name.items(), self.value.items())
    }
}

/// The header of copies of these.
pub fn header_of(alloc: Global, name: &[u8], value: &[u8]) -> Result<Header, NoMemory>
    ensures { IfOk result (λ header. header ≡ pair name.now value.now) }
{
    let name = Bytes::of(alloc, name)?;
    match Bytes::of(alloc, value) {
        Ok(value) => Ok(Header { name, value }),
        Err(fault) => {
            drop(name);
            Err(fault)
        }
    }
}
