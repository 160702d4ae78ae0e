// The inside of TLV 0x20: what a TLS front end said of its client. No public function has a `requires`.
#![tactic(auto)]

ghost use Rattle.std.specs.Prelude.{◌≡◌, ◌<◌};
ghost use Rattle.ssl_reader.specs.Ssl.{lacks_version, said_in};
ghost use Rattle.ssl_reader.specs.Told.{told_ssl, PartOf};
ghost use Rattle.ssl_reader.specs.Noted.{found_part, found_parts, noted};

use lent::{behind, front};
use network32::network_number;
use tlv_step::{IllFormed, Part, head_at};

/// Why a value is not read.
#[derive(Clone, Copy)]
pub enum SslError {
    /// It has under five bytes, or sub-TLVs do not fill the rest: the number 19.
    IllFormed,
    /// Bit 0x01 of the client asks for a version, and there is none: the number 20.
    NoVersion,
}

impl From<IllFormed> for SslError {
    ghost use Rattle.std.specs.Prelude.{◌≡◌};
    ghost use Rattle.ssl_reader.specs.declared.SslError.TheVariants.{IllFormed};

    ghost from_gives = { λ _ e. e ≡ IllFormed };

    fn from(_: IllFormed) -> SslError {
        SslError::IllFormed
    }
}

/// What a value says: the sub-TLVs 0x21 to 0x25 are the five pieces, of each the first one's value as a part of the value of TLV 0x20.
/// Empty is not absent.
#[derive(Clone, Copy)]
pub struct Ssl {
    pub client: u8,
    pub verify: u32,
    pub version: Option<Part>,
    pub common_name: Option<Part>,
    pub cipher: Option<Part>,
    pub signature: Option<Part>,
    pub key: Option<Part>,
}

// Notes a sub-TLV among the five pieces: the first of its type is the piece; other types and repeated ones are passed over. A piece that starts at 0 is
// not there yet, since no value starts there: five `Option<Part>` take half as much stack again.
fn note(pieces: &mut [Part; 5], tlv_type: u8, value: Part)
    requires { 0 < value.start }
    ensures { found_parts pieces.new ≡ noted tlv_type value 0x21 (found_parts pieces.old) }
{
    if tlv_type < 0x21 {
        return;
    }
    let i = (tlv_type - 0x21) as usize;
    if pieces.len() <= i {
        return;
    }
    if pieces[i].start != 0 {
        return;
    }
    pieces[i] = value;
}

// The piece that was noted, if there is one.
fn found(piece: Part) -> Option<Part>
    ensures { result ≡ found_part piece }
{
    (piece.start != 0).then_some(piece)
}

/// Whether a client with bit 0x01 has no version.
pub fn lacks_version(client: u8, absent: bool) -> bool
    ensures { result ≡ lacks_version client absent }
{
    client % 2 == 1 && absent
}

/// Reads the value of TLV 0x20, in one pass over its sub-TLVs.
pub fn read_ssl(value: &[u8]) -> Result<Ssl, SslError>
    ensures { told_ssl result ≡ said_in value.now }
{
    let [client, a, b, c, d, ..] = value else {
        return Err(SslError::IllFormed);
    };
    let mut pieces = [Part { start: 0, size: 0 }; 5];
    let mut at = 5;
    // A loop over places: the TLVs of an area that was tested would look at each sub-TLV twice.
    while let Some(tlv) = head_at(value, at)? {
        note(&mut pieces, tlv.tlv_type, tlv.value);
        at = tlv.value.start + tlv.value.size;
    }
    let [version, common_name, cipher, signature, key] = pieces;
    let version = found(version);
    if lacks_version(*client, version.is_none()) {
        return Err(SslError::NoVersion);
    }
    Ok(Ssl {
        client: *client,
        verify: network_number(*a, *b, *c, *d),
        version,
        common_name: found(common_name),
        cipher: found(cipher),
        signature: found(signature),
        key: found(key),
    })
}

/// The bytes of a piece, as the very part of the value; of an absent one, the empty part at 0.
pub fn piece_of(value: &[u8], piece: Option<Part>) -> &[u8]
    ensures { PartOf value.entry piece result }
{
    match piece {
        None => front(value, 0),
        Some(part) => front(behind(value, part.start), part.size),
    }
}
