//! The messages that are answered.
use base_lists::{Bytes, NoMemory};
use gnmi_data_msg::put_message;
use grpc_core::Method;
use std::alloc::Global;

#[derive(Clone, Copy, Debug)]
pub enum Case {
    /// A Get of one leaf.
    Leaf,
    /// A Get of all interfaces, as one JSON value.
    Interfaces,
    /// A Set of one leaf.
    Set,
}

/// The tree's schema: a list of interfaces, so that some 3,500 of them, 14,000 rows, are within the greatest weight of a tree.
pub const SCHEMA: &[u8] =
    b"module m\nlist /i k\nleaf /i/k uint16\nleaf /i/a bool\nleaf /i/b bool\nleaf /i/c bool\n";

/// The path of a leaf of the first interface, and that of the list.
const LEAF: &[u8] = b"\x1a\x0b\x0a\x01i\x12\x06\x0a\x01k\x12\x010\x1a\x03\x0a\x01a";

const ROOT: &[u8] = b"";

pub const CASES: [Case; 3] = [Case::Leaf, Case::Interfaces, Case::Set];

impl Case {
    pub fn named(name: &str) -> Option<Case> {
        match name {
            "leaf" => Some(Case::Leaf),
            "interfaces" => Some(Case::Interfaces),
            "set" => Some(Case::Set),
            _ => None,
        }
    }

    pub fn name(self) -> &'static str {
        match self {
            Case::Leaf => "leaf",
            Case::Interfaces => "interfaces",
            Case::Set => "set",
        }
    }

    pub fn method(self) -> Method {
        match self {
            Case::Leaf | Case::Interfaces => Method::Get,
            Case::Set => Method::Set,
        }
    }

    pub fn request(self, alloc: Global) -> Result<Bytes, NoMemory> {
        match self {
            Case::Leaf => get(alloc, LEAF),
            Case::Interfaces => get(alloc, ROOT),
            Case::Set => set(alloc, LEAF, b"true"),
        }
    }
}

/// A GetRequest of one path (gNMI 3.3.1), in JSON.
fn get(alloc: Global, path: &[u8]) -> Result<Bytes, NoMemory> {
    let mut request = Bytes::empty(alloc);
    put_message(alloc, 2, path, &mut request)?;
    Ok(request)
}

/// A SetRequest of one update (gNMI 3.4.1), whose value is a JSON text.
fn set(alloc: Global, path: &[u8], json: &[u8]) -> Result<Bytes, NoMemory> {
    let mut value = Bytes::empty(alloc);
    put_message(alloc, 10, json, &mut value)?;
    let mut update = Bytes::empty(alloc);
    put_message(alloc, 1, path, &mut update)?;
    put_message(alloc, 3, value.items(), &mut update)?;
    let mut request = Bytes::empty(alloc);
    put_message(alloc, 4, update.items(), &mut request)?;
    Ok(request)
}

/// A SetRequest of so many interfaces.
pub fn interfaces(alloc: Global, number: u32) -> Result<Bytes, NoMemory> {
    let mut json = Bytes::of(alloc, b"{\"m:i\":[")?;
    for place in 0..number {
        let comma = if place == 0 { "" } else { "," };
        let Ok(entry) = format!(in alloc;
            "{comma}{{\"k\":{place},\"a\":true,\"b\":false,\"c\":true}}"
        ) else {
            return Err(NoMemory);
        };
        json.extend_from_slice(entry.as_bytes())?;
    }
    json.extend_from_slice(b"]}")?;
    set(alloc, ROOT, json.items())
}
