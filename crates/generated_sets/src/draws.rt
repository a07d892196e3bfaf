ghost use Rattle.std.specs.Prelude.{◌≡◌, ◌<◌, ◌++◌, IfOk};
ghost use Rattle.generated_sets.specs.Draws.{drawn_at, interface_of, mtu_of, state_behind};

use base_lists::{Bytes, NoMemory};
use plain_texts::put_number;
use std::alloc::Global;

pub(crate) fn state_behind(state: u64) -> u64
    ensures { result ≡ state_behind state }
{
    state
        .wrapping_mul(6_364_136_223_846_793_005)
        .wrapping_add(1_442_695_040_888_963_407)
}

pub(crate) fn drawn_at(state: u64) -> u64
    ensures { result ≡ drawn_at state }
{
    state / 8_589_934_592
}

pub(crate) fn interface_of(alloc: Global, drawn: u64) -> Result<Bytes, NoMemory>
    ensures { IfOk result (λ name. name ≡ interface_of drawn) }
{
    let mut name = Bytes::of(alloc, b"eth")?;
    put_number(alloc, drawn % 64, &mut name)?;
    Ok(name)
}

pub(crate) fn mtu_of(drawn: u64) -> u64
    ensures { result ≡ mtu_of drawn }
{
    1280 + drawn / 64 % 8000
}
