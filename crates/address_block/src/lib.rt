// The address block of a version 2 header, and the record that it gives. No public function has a `requires`.
#![tactic(auto)]

ghost use Rattle.std.specs.Prelude.{◌≡◌, ◌+◌, ◌≤◌, take};
ghost use Rattle.exact.specs.Network.{number_at};
ghost use Rattle.record.specs.Kinds.{address_length, port_length};
ghost use Rattle.record.specs.Records.{held as held_of, record_of};
ghost use Rattle.address_block.specs.AddressBlock.{port_at, block_record};

use lent::{behind, byte_at, front};
use record::{Checksum, Kind, Record, address_length, port_length};

// The first 108 bytes, or as many as there are, as a record holds an address: zeros stand behind them.
pub fn held(bytes: &[u8]) -> [u8; 108]
    ensures { result ≡ held_of (take 108 bytes.now) }
{
    let mut held = [0; 108];
    lent::put(front(bytes, 108), &mut held, 0);
    held
}

// The record of a kind with these ports, and the addresses that these bytes begin with.
pub fn record_from(
    kind: Kind,
    source: &[u8],
    destination: &[u8],
    source_port: u16,
    destination_port: u16,
) -> Record
    ensures { result ≡ record_of kind (take (address_length kind) source.now) (take (address_length kind) destination.now) source_port destination_port }
{
    let n = address_length(kind);
    Record {
        kind,
        source: held(front(source, n)),
        destination: held(front(destination, n)),
        source_port,
        destination_port,
        checksum: Checksum::Absent,
    }
}

// The number of two bytes in network order; those that are missing count as zero.
fn number_at(block: &[u8], at: usize) -> u16
    requires { at ≤ 256 }
    ensures { result ≡ number_at block.now at }
{
    u16::from_be_bytes([byte_at(block, at), byte_at(block, at + 1)])
}

// The port at this place; zero, where the kind has no ports.
fn port_at(kind: Kind, block: &[u8], at: usize) -> u16
    requires { at ≤ 256 }
    ensures { result ≡ port_at kind block.now at }
{
    match kind {
        Kind::Ip4(_) | Kind::Ip6(_) => number_at(block, at),
        Kind::Local | Kind::Unspecified | Kind::Unix(_) => 0,
    }
}

// The source and the destination port of an address block; zero, where the kind has no ports.
pub fn ports_of(kind: Kind, block: &[u8]) -> (u16, u16)
    ensures source { result.0 ≡ port_at kind block.now (address_length kind + address_length kind) }
    ensures destination { result.1 ≡ port_at kind block.now (address_length kind + address_length kind + port_length kind) }
{
    let at = 2 * address_length(kind);
    (
        port_at(kind, block, at),
        port_at(kind, block, at + port_length(kind)),
    )
}

// The record that an address block of this kind gives; bytes that are missing count as zero.
pub fn addresses_of(kind: Kind, block: &[u8]) -> Record
    ensures { result ≡ block_record kind block.now }
{
    let (source_port, destination_port) = ports_of(kind, block);
    let rest = behind(block, address_length(kind));
    record_from(kind, block, rest, source_port, destination_port)
}
