ghost use Rattle.std.specs.Prelude.{◌≡◌, [], Some, None, OnOk};
ghost use Rattle.hpack_block.specs.StaticTable.{pair};
ghost use Rattle.hpack_block.specs.inner.Gathering.{with_header, list_or_fault};

use crate::dynamic_table::room_beside;
use crate::header::{BlockFault, Header, Headers, header_of};
use base_lists::NoMemory;
use std::alloc::Global;
use std::marker::Model;

/// The largest size that a list of headers may have.
const LARGEST_LIST: usize = 16_384;

/// The headers of a block so far. Where their list is too long, none is kept.
#[derive(Drop)]
pub struct HeaderList {
    headers: Option<Headers>,
    /// What the headers leave of the largest size.
    room: usize,
}

impl Model for HeaderList {
    ghost use Rattle.std.specs.Prelude.{◌≡◌, ◌+◌, [], List, Option, unwrap_or};
    ghost use Rattle.hpack_block.specs.declared.header.Header.{Header};
    ghost use Rattle.hpack_block.specs.Tables.{size_of_all};
    ghost use Rattle.hpack_block.specs.Answers.{largest_list};

    ghost Value = { Option (List Header) };

    ghost view = { λ l. l.headers };

    ghost invariant = { λ l. size_of_all (unwrap_or l.headers []) + l.room ≡ largest_list };
}

impl HeaderList {
    /// Takes no memory.
    pub(crate) fn empty(alloc: Global) -> HeaderList
        ensures { result ≡ Some [] }
    {
        HeaderList {
            headers: Some(Headers::empty(alloc)),
            room: LARGEST_LIST,
        }
    }

    pub(crate) fn push(&mut self, header: Header) -> Result<(), NoMemory>
        ensures { OnOk result (self.new ≡ with_header header self.old) }
    {
        let Some(headers) = &mut self.headers else {
            drop(header);
            return Ok(());
        };
        match room_beside(self.room, header.name.items(), header.value.items()) {
            None => {
                drop(header);
                self.give_up();
                Ok(())
            }
            Some(room) => {
                headers.push(header)?;
                self.room = room;
                Ok(())
            }
        }
    }

    // What follows a list that is too long: its headers are let go.
    fn give_up(&mut self)
        ensures { self.new ≡ None }
    {
        drop(self.headers.take());
        self.room = LARGEST_LIST;
    }

    /// A copy of a header, which is only made where it is kept.
    pub(crate) fn push_copy(
        &mut self,
        alloc: Global,
        name: &[u8],
        value: &[u8],
    ) -> Result<(), NoMemory>
        ensures { OnOk result (self.new ≡ with_header (pair name.now value.now) self.old) }
    {
        if self.headers.is_none() {
            return Ok(());
        }
        if room_beside(self.room, name, value).is_none() {
            self.give_up();
            return Ok(());
        }
        let header = header_of(alloc, name, value)?;
        self.push(header)
    }

    pub(crate) fn into_headers(self) -> Result<Headers, BlockFault>
        ensures { result ≡ list_or_fault self }
    {
        let HeaderList { headers, room: _ } = self;
        headers.ok_or(BlockFault::TooLong)
    }
}
