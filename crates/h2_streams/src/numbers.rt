// Numbers of several octets, the highest first.
ghost use Rattle.std.specs.Prelude.{◌≡◌, [], ◌∷◌, ◌+◌, ◌*◌, ◌^◌};
ghost use Rattle.h2_streams.specs.Payloads.{number};

pub(crate) fn of_2(a: u8, b: u8) -> u32
    ensures { result ≡ number 0 (a ∷ b ∷ []) }
{
    u32::from(a) * 256 + u32::from(b)
}

/// The number of four octets, the highest first.
pub fn of_4(a: u8, b: u8, c: u8, d: u8) -> u32
    ensures { result ≡ number 0 (a ∷ b ∷ c ∷ d ∷ []) }
{
    ((u32::from(a) * 256 + u32::from(b)) * 256 + u32::from(c)) * 256 + u32::from(d)
}

/// The number of two of four octets each.
pub fn of_8(high: u32, low: u32) -> u64
    ensures { result ≡ high * 2 ^ 32 + low }
{
    u64::from(high) * 4_294_967_296 + u64::from(low)
}
