// The writer of TLV 0x20's value. No public function has a `requires`.
#![tactic(auto)]

ghost use Rattle.std.specs.Prelude.{◌≡◌, ◌+◌, ◌≤◌, min, length, option_copied};
ghost use Rattle.answer.specs.Answers.{told_written};
ghost use Rattle.ssl_writer.specs.Written.{lent_pieces};
ghost use Rattle.ssl_writer.specs.Steps.{piece_size, size_from, answer_by, piece_placed, piece_behind, pieces_placed};
ghost use Rattle.ssl_writer.specs.Writes.{Writes};

use answer::Fault;
use lent::put;
use network32::network_bytes;
use ssl_reader::lacks_version;
use tlv_writer::put_tlv;

// The length of a value with one more piece, if it is there; 65,536 stands for all that is longer.
fn with_piece(length: usize, piece: Option<&[u8]>) -> usize
    requires { length ≤ 65536 }
    ensures { result ≡ min (length + piece_size (option_copied piece.entry)) 65536 }
{
    match piece {
        Some(bytes) => (length + 3 + bytes.len()).min(65536),
        None => length,
    }
}

// The length of a value with these pieces; 65,536 stands for all that is longer.
fn value_size(pieces: &[Option<&[u8]>; 5]) -> usize
    ensures { result ≡ min (size_from 5 (lent_pieces pieces.now)) 65536 }
{
    let mut size = 5;
    for piece in pieces {
        size = with_piece(size, *piece);
    }
    size
}

// What is answered: a client that must have a version and has none (20), a value that is too long (13), an output that is too short (14), or the
// value's length.
fn check(client: u8, pieces: &[Option<&[u8]>; 5], room: usize) -> Result<usize, Fault>
    ensures { told_written result ≡ answer_by client (lent_pieces pieces.now) room }
{
    if lacks_version(client, pieces[0].is_none()) {
        return Err(Fault::Version);
    }
    let size = value_size(pieces);
    if 65535 < size {
        return Err(Fault::Size);
    }
    if room < size {
        return Err(Fault::Room);
    }
    Ok(size)
}

// Puts a piece, if it is there, at this place of the output as a sub-TLV of this type, and answers the place behind it.
fn put_piece(tlv_type: u8, piece: Option<&[u8]>, out: &mut [u8], at: usize) -> usize
    ensures { (result ≡ piece_behind tlv_type (option_copied piece.entry) at (length out.old))
        × (out.new ≡ piece_placed tlv_type (option_copied piece.entry) at out.old) }
{
    match piece {
        Some(bytes) => put_tlv(tlv_type, bytes, out, at),
        None => at,
    }
}

// Puts the pieces that are there behind the first five bytes of the output, in order of type.
fn put_pieces(pieces: &[Option<&[u8]>; 5], out: &mut [u8])
    ensures { out.new ≡ pieces_placed 0x21 (lent_pieces pieces.now) 5 out.old }
{
    let mut at = 5;
    for (i, piece) in pieces.iter().enumerate() {
        at = put_piece(0x21 + i as u8, *piece, out, at);
    }
}

// Writes the value of a client, a verify number and the pieces that are there, of types 0x21 to 0x25: how many bytes, or why the output stays as it
// was.
pub fn write_ssl(
    client: u8,
    verify: u32,
    pieces: &[Option<&[u8]>; 5],
    out: &mut [u8],
) -> Result<usize, Fault>
    ensures { Writes client verify (lent_pieces pieces.now) out.old (told_written result) out.new }
{
    let n = check(client, pieces, out.len())?;
    put(&[client], out, 0);
    put(&network_bytes(verify), out, 1);
    put_pieces(pieces, out);
    Ok(n)
}
