ghost use Rattle.std.specs.Prelude.{◌≡◌, ◌≤◌, OnOk, length, option_map, slice_get};
ghost use Rattle.std.specs.Option.{option_copied};
ghost use Rattle.hpack_block.specs.StaticTable.{pair};
ghost use Rattle.hpack_block.specs.Tables.{with_entry, with_maximum, empty_table, entry_at, fitting_entries, largest_table, size_of_all};
ghost use Rattle.hpack_block.specs.inner.Gathering.{room_beside};

use crate::header::Header;
use crate::static_table::{STATIC_ENTRIES, static_entry};
use base_lists::NoMemory;
use std::alloc::Global;
use std::collections::VecDeque;
use std::marker::Model;

/// The largest size that the table may have.
pub(crate) const LARGEST_TABLE: usize = 4_096;

const OVERHEAD: usize = 32;

/// The dynamic table (RFC 7541, section 2.3.2). Contracts see its entries, the newest first, and its maximum size.
#[derive(Drop)]
pub struct DynamicTable {
    entries: VecDeque<Header>,
    /// The maximum size.
    maximum: usize,
    /// What the entries leave of it.
    room: usize,
}

impl Model for DynamicTable {
    ghost use Rattle.std.specs.Prelude.{◌≡◌, ◌+◌, ◌≤◌};
    ghost use Rattle.hpack_block.specs.Tables.{Table, size_of_all, largest_table};

    ghost Value = { Table };

    ghost view = { λ t. record { entries = t.entries.items; maximum = t.maximum } };

    ghost invariant = { λ t. (size_of_all t.entries.items + t.room ≡ t.maximum)
        × (t.maximum ≤ largest_table) };
}

impl DynamicTable {
    /// Takes no memory.
    pub(crate) fn empty(alloc: Global) -> DynamicTable
        ensures { result ≡ empty_table }
    {
        DynamicTable {
            entries: VecDeque::new(alloc),
            maximum: LARGEST_TABLE,
            room: LARGEST_TABLE,
        }
    }

    /// The name and the value at an index of both tables.
    pub(crate) fn entry(&self, index: usize) -> Option<(&[u8], &[u8])>
        ensures { option_map (λ x. pair x.0.now x.1.now) result ≡ entry_at self.now index }
    {
        if index == 0 {
            return None;
        }
        let place = index - 1;
        if place < STATIC_ENTRIES {
            return Some(static_entry(place));
        }
        let header = self.dynamic_entry(place - STATIC_ENTRIES)?;
        Some((header.name.items(), header.value.items()))
    }

    fn dynamic_entry(&self, place: usize) -> Option<&Header>
        ensures { option_copied result ≡ slice_get self.now.entries place }
    {
        self.entries.get(place)
    }

    /// After want of memory the entries that were evicted are gone.
    pub(crate) fn add(&mut self, header: Header) -> Result<(), NoMemory>
        ensures { OnOk result (self.new ≡ with_entry header self.old) }
    {
        let Some(room) = room_beside(self.maximum, header.name.items(), header.value.items()) else {
            drop(header);
            self.entries.clear();
            self.room = self.maximum;
            return Ok(());
        };
        self.evict(room);
        let beside = self.maximum - room;
        self.entries.push_front(header)?;
        self.room -= beside;
        Ok(())
    }

    pub(crate) fn resize(&mut self, maximum: usize)
        requires { maximum ≤ largest_table }
        ensures { self.new ≡ with_maximum maximum self.old }
    {
        self.evict(maximum);
        let size = self.maximum - self.room;
        self.maximum = maximum;
        self.room = maximum - size;
    }

    pub(crate) fn count(&self) -> usize
        ensures { result ≡ length self.now.entries }
    {
        self.entries.len()
    }

    pub(crate) fn size(&self) -> usize
        ensures { result ≡ size_of_all self.now.entries }
    {
        self.maximum - self.room
    }

    // Evicts the oldest entries until the others have no more than this size.
    fn evict(&mut self, most: usize)
        ensures { self.new ≡ record self.old { entries = fitting_entries most self.old.entries } }
    {
        while self.maximum - self.room > most {
            let Some(oldest) = self.entries.pop_back() else {
                return;
            };
            self.room += oldest.name.len() + oldest.value.len() + OVERHEAD;
        }
    }
}

/// What is left of a room beside an entry, if it fits.
pub(crate) fn room_beside(room: usize, name: &[u8], value: &[u8]) -> Option<usize>
    ensures { result ≡ room_beside room (pair name.now value.now) }
{
    room.checked_sub(OVERHEAD)?
        .checked_sub(name.len())?
        .checked_sub(value.len())
}
