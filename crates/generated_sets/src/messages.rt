ghost use Rattle.std.specs.Prelude.{◌≡◌, ◌<◌, ◌^◌, length, IfOk};
ghost use Rattle.generated_sets.specs.Messages.{element, element_with_key, path_of_mtu, set_request, update_of_mtu};

use crate::draws::{interface_of, mtu_of};
use base_lists::{Bytes, NoMemory};
use pb_wire::{put_octets, put_varint};
use std::alloc::Global;

fn element(alloc: Global, name: &[u8]) -> Result<Bytes, NoMemory>
    ensures { IfOk result (λ octets. octets ≡ element name.now) }
{
    let mut octets = Bytes::empty(alloc);
    put_octets(1, name, &mut octets)?;
    Ok(octets)
}

fn element_with_key(alloc: Global, name: &[u8], key: &[u8], value: &[u8]) -> Result<Bytes, NoMemory>
    ensures { IfOk result (λ octets. octets ≡ element_with_key name.now key.now value.now) }
{
    let mut entry = Bytes::empty(alloc);
    put_octets(1, key, &mut entry)?;
    put_octets(2, value, &mut entry)?;
    let mut octets = element(alloc, name)?;
    put_octets(2, entry.items(), &mut octets)?;
    Ok(octets)
}

fn path_of_mtu(alloc: Global, interface: &[u8]) -> Result<Bytes, NoMemory>
    ensures { IfOk result (λ octets. octets ≡ path_of_mtu interface.now) }
{
    let interfaces = element(alloc, b"interfaces")?;
    let interface = element_with_key(alloc, b"interface", b"name", interface)?;
    let config = element(alloc, b"config")?;
    let mtu = element(alloc, b"mtu")?;
    let mut path = Bytes::empty(alloc);
    put_octets(3, interfaces.items(), &mut path)?;
    put_octets(3, interface.items(), &mut path)?;
    put_octets(3, config.items(), &mut path)?;
    put_octets(3, mtu.items(), &mut path)?;
    Ok(path)
}

fn update_of_mtu(alloc: Global, interface: &[u8], mtu: u64) -> Result<Bytes, NoMemory>
    ensures { IfOk result (λ octets. octets ≡ update_of_mtu interface.now mtu) }
{
    let path = path_of_mtu(alloc, interface)?;
    let mut value = Bytes::empty(alloc);
    put_varint(3, mtu, &mut value)?;
    let mut update = Bytes::empty(alloc);
    put_octets(1, path.items(), &mut update)?;
    put_octets(3, value.items(), &mut update)?;
    Ok(update)
}

pub(crate) fn set_request(alloc: Global, drawn: u64) -> Result<Bytes, NoMemory>
    ensures octets { IfOk result (λ octets. octets ≡ set_request drawn) }
    ensures small { IfOk result (λ octets. length octets < 2 ^ 8) }
{
    let interface = interface_of(alloc, drawn)?;
    let update = update_of_mtu(alloc, interface.items(), mtu_of(drawn))?;
    let mut request = Bytes::empty(alloc);
    put_octets(4, update.items(), &mut request)?;
    Ok(request)
}
