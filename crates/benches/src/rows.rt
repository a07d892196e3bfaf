//! Rows that the program makes itself.
use crate::fault::Fault;
use base_kinds::{Path, Row, Rows, Seq, Value};
use path_core::read_path_text;
use std::alloc::Global;

// So that all numbers have eight digits.
const LEAST: u64 = 10_000_000;

/// So many rows, each of an interface of its own, with this value.
pub fn made(alloc: Global, number: u32, value: u64) -> Result<Rows, Fault> {
    let mut rows = Seq::empty(alloc);
    for place in 0..number {
        let path = path_of(alloc, LEAST.wrapping_add(u64::from(place)))?;
        rows.push(Row {
            path,
            value: Value::Uint(value),
        })?;
    }
    Ok(rows)
}

fn path_of(alloc: Global, number: u64) -> Result<Path, Fault> {
    let Ok(text) = format!(in alloc; "/interfaces/interface[name=e{number}]/config/mtu") else {
        return Err(Fault::NoMemory);
    };
    Ok(read_path_text(alloc, text.as_bytes())?)
}

/// The rows, the first of them with this value.
pub fn with_first(alloc: Global, number: u32, value: u64, first: u64) -> Result<Rows, Fault> {
    let mut rows = made(alloc, 1.min(number), first)?;
    for place in 1..number {
        let path = path_of(alloc, LEAST.wrapping_add(u64::from(place)))?;
        rows.push(Row {
            path,
            value: Value::Uint(value),
        })?;
    }
    Ok(rows)
}
