ghost use Rattle.std.specs.Prelude.{◌≡◌, IfOk, IsUtf8, OnOk, IsErrOf};

use crate::no_memory::NoMemory;
use crate::seq::{Copied, Same};
use std::alloc::Global;
use std::marker::Model;

/// A text in UTF-8 (RFC 3629). Contracts see its octets.
#[derive(Debug, Drop)]
pub struct Text {
    stored: String,
}

impl Model for Text {
    ghost use Rattle.std.specs.Prelude.{List, ℕ, string_bytes};

    ghost Value = { List ℕ };

    ghost view = { λ t. string_bytes t.stored };
}

#[derive(Clone, Copy, Debug, PartialEq, Eq)]
pub enum TextOfFault {
    NotUtf8,
    NoMemory,
}

impl Text {
    /// The text that the octets are.
    pub fn of(alloc: Global, octets: &[u8]) -> Result<Text, TextOfFault>
        ensures ok { IfOk result (λ t. t ≡ octets.now) }
        ensures is_utf8 { OnOk result (IsUtf8 octets.now) }
        ensures not_utf8 { IsErrOf result TextOfFault.NotUtf8 → IsUtf8 octets.now → ⊥ }
    {
        match std::str::from_utf8(octets) {
            Err(_) => Err(TextOfFault::NotUtf8),
            Ok(text) => match String::from_str(alloc, text) {
                Err(_) => Err(TextOfFault::NoMemory),
                Ok(stored) => Ok(Text { stored }),
            },
        }
    }

    pub fn octets(&self) -> &[u8]
        ensures value { result.now ≡ self.now }
        ensures is_utf8 { IsUtf8 result.now }
    {
        self.stored.as_str().as_bytes()
    }
}

impl Copied for Text {
    fn copy(&self, alloc: Global) -> Result<Text, NoMemory> {
        let stored = String::from_str(alloc, self.stored.as_str())?;
        Ok(Text { stored })
    }
}

impl Same for Text {
    fn same(&self, other: &Text) -> bool {
        self.octets() == other.octets()
    }
}
