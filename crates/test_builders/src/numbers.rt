use base_lists::{NoMemory, Text, Texts};
use std::alloc::Global;

/// The number in decimal.
fn decimal(alloc: Global, number: u64) -> Result<Text, NoMemory> {
    let digits = number.to_string(alloc).ok().ok_or(NoMemory)?;
    Text::of(alloc, digits.as_bytes()).ok().ok_or(NoMemory)
}

/// Puts the numbers in decimal after the texts.
fn put_decimals(alloc: Global, numbers: &[u64], texts: &mut Texts) -> Result<(), NoMemory> {
    for number in numbers {
        texts.push(decimal(alloc, *number)?)?;
    }
    Ok(())
}

/// The numbers in decimal, as a source or a sink in memory wants those of the calls in which it fails. Calls are counted from 1, so
/// that 0 is none.
pub fn decimals(alloc: Global, numbers: &[u64]) -> Result<Texts, NoMemory> {
    let mut texts = Texts::empty(alloc);
    match put_decimals(alloc, numbers, &mut texts) {
        Ok(()) => Ok(texts),
        Err(fault) => {
            drop(texts);
            Err(fault)
        }
    }
}
