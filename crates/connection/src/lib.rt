// A connection, as C callers hold a record: the stored form's kind code, two addresses of 108 bytes, two ports, high byte first, and the checksum
// state.
// No public function has a `requires`.
#![tactic(auto)]

ghost use Rattle.std.specs.Prelude.{◌≡◌, ◌+◌, ◌≤◌, length, drop};
ghost use Rattle.record.specs.declared.Kind.TheVariants.{Unspecified};
ghost use Rattle.record.specs.Records.{bare, held, record_of, with_checksum};
ghost use Rattle.lent.specs.Placed.{placed};
ghost use Rattle.address_block.specs.AddressBlock.{block_record};
ghost use Rattle.answer.specs.Sight.{caller_record};
ghost use Rattle.answer.specs.Headers.{header_of};
ghost use Rattle.lent.specs.Buffers.{told_in};
ghost use Rattle.connection.specs.Connection.{connection_size, connection_bytes};

use address_block::ports_of;
use answer::{Caller, Sight};
use kind_code::{code_of, state_byte};
use lent::{behind, front, put};
use record::{Checksum, Kind, Record, address_length};

// 1 + 108 + 108 + 2 + 2 + 1.
pub const CONNECTION: usize = 222;

// A record whose addresses are lent, by the bytes read, by a caller or by a record: they are copied into the output only.
#[derive(Clone, Copy)]
struct Lent<'a> {
    kind: Kind,
    source: &'a [u8],
    destination: &'a [u8],
    source_port: u16,
    destination_port: u16,
    checksum: Checksum,
}

static ZEROS: [u8; 108] = [0; 108];

// Puts an address, and zeros behind it up to 108 bytes, at this place of the output: over zeros, since an array of them would take stack.
fn put_address(address: &[u8], out: &mut [u8], at: usize)
    requires { (length address.now ≤ 108) × (at + 108 ≤ length out.old) }
    ensures { out.new ≡ placed (held address.now) at out.old }
{
    put(&ZEROS, out, at);
    put(address, out, at);
}

// Puts the record's connection, where the output has room for it; else it stays as it is.
fn put_connection(from: Lent, out: &mut [u8])
    requires { (length from.source.now ≤ 108) × (length from.destination.now ≤ 108) }
    ensures { out.new ≡ told_in connection_size (connection_bytes (with_checksum from.entry.checksum
        (record_of from.entry.kind from.entry.source.now from.entry.destination.now from.entry.source_port from.entry.destination_port))) out.old }
{
    if out.len() < CONNECTION {
        return;
    }
    put(&[code_of(from.kind)], out, 0);
    put_address(from.source, out, 1);
    put_address(from.destination, out, 109);
    put(&from.source_port.to_be_bytes(), out, 217);
    put(&from.destination_port.to_be_bytes(), out, 219);
    put(&[state_byte(from.checksum)], out, 221);
}

// The same of a caller's record.
fn put_caller(caller: &Caller, out: &mut [u8])
    ensures { out.new ≡ told_in connection_size (connection_bytes (caller_record caller.now)) out.old }
{
    let n = address_length(caller.kind);
    let from = Lent {
        kind: caller.kind,
        source: front(&caller.source, n),
        destination: front(&caller.destination, n),
        source_port: caller.source_port,
        destination_port: caller.destination_port,
        checksum: Checksum::Absent,
    };
    put_connection(from, out);
}

// The same of a version 2 header's record: its address block begins at 16.
fn put_block(kind: Kind, bytes: &[u8], out: &mut [u8])
    ensures { out.new ≡ told_in connection_size (connection_bytes (block_record kind (drop 16 bytes.now))) out.old }
{
    let n = address_length(kind);
    let block = behind(bytes, 16);
    let (source_port, destination_port) = ports_of(kind, block);
    let from = Lent {
        kind,
        source: front(block, n),
        destination: front(behind(block, n), n),
        source_port,
        destination_port,
        checksum: Checksum::Absent,
    };
    put_connection(from, out);
}

// Puts the connection that is seen in the bytes, where the output has room for it; else it stays as it is.
pub fn put_sight(bytes: &[u8], sight: &Sight, out: &mut [u8])
    ensures { out.new ≡ told_in connection_size (connection_bytes (header_of bytes.now sight.now).«record») out.old }
{
    match sight {
        Sight::Line(line) => put_caller(&line.value, out),
        Sight::Block(block) => put_block(block.value, bytes, out),
    }
}

// Puts the connection of no header, where the output has room for it; else it stays as it is. No record is made for it, since most bytes that come
// piece by piece are no header yet.
pub fn put_none(out: &mut [u8])
    ensures { out.new ≡ told_in connection_size (connection_bytes (bare Unspecified)) out.old }
{
    let from = Lent {
        kind: Kind::Unspecified,
        source: &[],
        destination: &[],
        source_port: 0,
        destination_port: 0,
        checksum: Checksum::Absent,
    };
    put_connection(from, out);
}

// Puts a record's connection, where the output has room for it; else it stays as it is.
pub fn put_record(record: Record, out: &mut [u8])
    ensures { out.new ≡ told_in connection_size (connection_bytes «record») out.old }
{
    let from = Lent {
        kind: record.kind,
        source: &record.source,
        destination: &record.destination,
        source_port: record.source_port,
        destination_port: record.destination_port,
        checksum: record.checksum,
    };
    put_connection(from, out);
}
