// A record's address block, put into an output. No public function has a `requires`.
#![tactic(auto)]

ghost use Rattle.std.specs.Prelude.{◌≡◌, take};
ghost use Rattle.exact.specs.Network.{network};
ghost use Rattle.record.specs.Kinds.{port_length};
ghost use Rattle.address_block.specs.AddressBlock.{address_block};
ghost use Rattle.lent.specs.Placed.{placed};

use lent::{front, put};
use record::{Kind, Record, address_length, block_length, port_length};

// Puts a port of the kind in network order: nothing, where the kind has no ports.
fn put_port(kind: Kind, port: u16, out: &mut [u8], at: usize)
    ensures { out.new ≡ placed (take (port_length kind) (network port)) at out.old }
{
    put(front(&port.to_be_bytes(), port_length(kind)), out, at);
}

// Puts the record's address block at this place of the output, where it fits; else the output stays as it is.
pub fn put_addresses(r: &Record, out: &mut [u8], at: usize)
    ensures { out.new ≡ placed (address_block r.now) at out.old }
{
    if out.len() < at {
        return;
    }
    if out.len() - at < block_length(r.kind) {
        return;
    }
    let n = address_length(r.kind);
    let m = port_length(r.kind);
    put(front(&r.source, n), out, at);
    put(front(&r.destination, n), out, at + n);
    put_port(r.kind, r.source_port, out, at + n + n);
    put_port(r.kind, r.destination_port, out, at + n + n + m);
}
