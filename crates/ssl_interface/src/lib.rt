// The value of TLV 0x20 for C callers: what it says, and its writer. No public function has a `requires`.
#![tactic(auto)]

ghost use Rattle.std.specs.Prelude.{◌≡◌, ◌<◌, option_copied};
ghost use Rattle.ssl_reader.specs.Ssl.{said_in};
ghost use Rattle.ssl_reader.specs.Told.{part_start, part_size, told_outcome, told_ssl};
ghost use Rattle.ssl_writer.specs.Written.{piece_if, pieces_of};
ghost use Rattle.ssl_interface.specs.SslInterface.{outcome_number, said_numbers, SslTold, is_there, present_of, WritesSsl};

use numbers::{put_all, room_beside, tell_written};
use ssl_reader::{Ssl, SslError, read_ssl};
use ssl_writer::write_ssl;
use tlv_step::Part;

// How many numbers tell what a value says.
const SSL_NUMBERS: usize = 12;

// Where a piece starts, and how long it is; an absent one is told as the empty piece at 0.
fn span(piece: Option<Part>) -> (usize, usize)
    ensures { (result.0 ≡ part_start piece) × (result.1 ≡ part_size piece) }
{
    piece.map_or((0, 0), |part| (part.start, part.size))
}

// The numbers that tell what a value says.
fn numbers_of(said: &Ssl) -> [u64; 12]
    ensures { result ≡ said_numbers (told_ssl (Ok said.now)) }
{
    let version = span(said.version);
    let common_name = span(said.common_name);
    let cipher = span(said.cipher);
    let signature = span(said.signature);
    let key = span(said.key);
    [
        said.client as u64,
        said.verify as u64,
        version.0 as u64,
        version.1 as u64,
        common_name.0 as u64,
        common_name.1 as u64,
        cipher.0 as u64,
        cipher.1 as u64,
        signature.0 as u64,
        signature.1 as u64,
        key.0 as u64,
        key.1 as u64,
    ]
}

// The number of a refusal.
fn error_number(error: SslError) -> u32
    ensures { result ≡ outcome_number (told_outcome (Err error)) }
{
    match error {
        SslError::IllFormed => 19,
        SslError::NoVersion => 20,
    }
}

// Reads a value. With room for 12 numbers they are told; else nothing is written.
pub fn read(value: &[u8], numbers: &mut [u64]) -> u32
    ensures { SslTold (said_in value.now) numbers.old result numbers.new }
{
    if numbers.len() < SSL_NUMBERS {
        return 14;
    }
    match read_ssl(value) {
        Ok(said) => {
            put_all(&numbers_of(&said), numbers);
            0
        }
        Err(error) => {
            put_all(&[0; SSL_NUMBERS], numbers);
            error_number(error)
        }
    }
}

// A piece, if its bit says that it is there: bit i is piece 0x21 + i, and higher bits are ignored.
fn piece_by(present: u8, i: u8, bytes: &[u8]) -> Option<&[u8]>
    requires { i < 8 }
    ensures { option_copied result ≡ piece_if (is_there i present) bytes.now }
{
    (present >> i & 1 == 1).then_some(bytes)
}

// Writes a value, and tells its length; or answers why not, and leaves both buffers as they were.
pub fn write(
    client: u8,
    verify: u32,
    present: u8,
    version: &[u8],
    common_name: &[u8],
    cipher: &[u8],
    signature: &[u8],
    key: &[u8],
    out: &mut [u8],
    numbers: &mut [u64],
) -> u32
    ensures { WritesSsl client verify (pieces_of (present_of present) version.now common_name.now cipher.now signature.now key.now) out.old numbers.old result out.new numbers.new }
{
    let room = room_beside(numbers.len(), out.len());
    let pieces = [
        piece_by(present, 0, version),
        piece_by(present, 1, common_name),
        piece_by(present, 2, cipher),
        piece_by(present, 3, signature),
        piece_by(present, 4, key),
    ];
    tell_written(
        write_ssl(client, verify, &pieces, &mut out[..room]),
        numbers,
    )
}
