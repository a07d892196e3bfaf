// Numbers in decimal, from 1 on.
ghost use Rattle.std.specs.Prelude.{◌≡◌, ◌<◌, ◌^◌};
ghost use Rattle.schema_text.specs.Words.{number_up_to};

use plain_texts::natural_of;

/// The number that the octets spell in decimal, without leading zeros, from 1 to this.
pub(crate) fn number_up_to(most: u32, octets: &[u8]) -> Option<u32>
    ensures { result ≡ number_up_to most octets.now }
{
    let number = natural_of(octets)?;
    if number < 1 || number > u64::from(most) {
        return None;
    }
    Some(number as u32)
}
