ghost use Rattle.std.specs.Prelude.{◌≡◌};
ghost use Rattle.benches.specs.Checksum.{added};

/// The checksum with one more value.
pub fn added(before: u64, value: u64) -> u64
    ensures { result ≡ added before value }
{
    before.wrapping_mul(31).wrapping_add(value)
}
