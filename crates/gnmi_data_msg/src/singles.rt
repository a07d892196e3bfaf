//! Single messages, numbers, truth values and enums.
ghost use Rattle.std.specs.Prelude.{◌≡◌, [], unwrap_or, IfOk};
ghost use Rattle.gnmi_data_msg.specs.Singles.{single_message, count_under, flag_under, enum_under};

use base_lists::{Bytes, NoMemory};
use pb_message::{message_under, number_under};
use std::alloc::Global;

/// A message, or one without fields. Takes no memory.
pub fn or_empty(alloc: Global, message: Option<Bytes>) -> Bytes
    ensures { result ≡ unwrap_or message [] }
{
    match message {
        None => Bytes::empty(alloc),
        Some(message) => message,
    }
}

/// The octets of a single message, which are those of its occurrences, joined. That each of them is a message by itself isn't
/// asked.
pub fn single_message(alloc: Global, octets: &[u8], number: u32) -> Result<Bytes, NoMemory>
    ensures { IfOk result (λ message. message ≡ single_message number octets.now) }
{
    let message = message_under(alloc, octets, number)?;
    Ok(or_empty(alloc, message))
}

/// A single uint64. Takes no memory.
pub fn count_under(octets: &[u8], number: u32) -> u64
    ensures { result ≡ count_under number octets.now }
{
    number_under(octets, number).unwrap_or(0)
}

/// A single bool. Takes no memory.
pub fn flag_under(octets: &[u8], number: u32) -> bool
    ensures { result ≡ flag_under number octets.now }
{
    count_under(octets, number) != 0
}

/// The number of a single enum. Takes no memory.
pub fn enum_under(octets: &[u8], number: u32) -> u32
    ensures { result ≡ enum_under number octets.now }
{
    (count_under(octets, number) % (1 << 32)) as u32
}
