// What the bytes of a connection ask of a writer. No public function has a `requires`.
#![tactic(auto)]

ghost use Rattle.std.specs.Prelude.{◌≡◌, length};
ghost use Rattle.request.specs.Request.{error_number, given_record, request as request_of};
ghost use Rattle.connection.specs.Connection.{connection_size};

use address_block::held;
use connection::CONNECTION;
use kind_code::{kind_of, state_of};
use record::{Checksum, Kind, Record};

// Why the bytes of a connection ask for no record: they have another length, or an unknown kind code or state.
#[derive(Clone, Copy)]
pub enum RequestError {
    Length,
    Code,
}

// The number of an error.
impl From<RequestError> for u32 {
    ghost from_gives = { λ error n. n ≡ error_number error };

    fn from(error: RequestError) -> u32 {
        match error {
            RequestError::Length => 18,
            RequestError::Code => 17,
        }
    }
}

// The record of a connection of this kind and state.
fn connection_of(kind: Kind, checksum: Checksum, bytes: &[u8]) -> Record
    requires { length bytes.now ≡ connection_size }
    ensures { result ≡ given_record kind checksum bytes.now }
{
    Record {
        kind,
        source: held(&bytes[1..109]),
        destination: held(&bytes[109..217]),
        source_port: u16::from_be_bytes([bytes[217], bytes[218]]),
        destination_port: u16::from_be_bytes([bytes[219], bytes[220]]),
        checksum,
    }
}

// The record that the bytes of a connection ask for.
pub fn request(bytes: &[u8]) -> Result<Record, RequestError>
    ensures { result ≡ request_of bytes.now }
{
    if bytes.len() != CONNECTION {
        return Err(RequestError::Length);
    }
    let kind = kind_of(bytes[0]).ok_or(RequestError::Code)?;
    let checksum = state_of(bytes[221]).ok_or(RequestError::Code)?;
    Ok(connection_of(kind, checksum, bytes))
}
