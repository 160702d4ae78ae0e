// The kind codes of the stored form and of C connections, and the bytes of a checksum state. No public function has a `requires`.
#![tactic(auto)]

ghost use Rattle.std.specs.Prelude.{◌≡◌};
ghost use Rattle.kind_code.specs.Codes.{code_of, kind_of};
ghost use Rattle.kind_code.specs.States.{state_byte, state_of};

use record::{Checksum, Kind, Transport};

// The code of a kind. A function, and no `From<Kind> for u8`: byte 13 of a kind (crate record) is another number of it.
pub fn code_of(kind: Kind) -> u8
    ensures { result ≡ code_of kind }
{
    match kind {
        Kind::Local => 0x00,
        Kind::Unspecified => 0x01,
        Kind::Ip4(Transport::Stream) => 0x11,
        Kind::Ip4(Transport::Datagram) => 0x12,
        Kind::Ip6(Transport::Stream) => 0x21,
        Kind::Ip6(Transport::Datagram) => 0x22,
        Kind::Unix(Transport::Stream) => 0x31,
        Kind::Unix(Transport::Datagram) => 0x32,
    }
}

// The kind of a code.
pub fn kind_of(code: u8) -> Option<Kind>
    ensures { result ≡ kind_of code }
{
    match code {
        0x00 => Some(Kind::Local),
        0x01 => Some(Kind::Unspecified),
        0x11 => Some(Kind::Ip4(Transport::Stream)),
        0x12 => Some(Kind::Ip4(Transport::Datagram)),
        0x21 => Some(Kind::Ip6(Transport::Stream)),
        0x22 => Some(Kind::Ip6(Transport::Datagram)),
        0x31 => Some(Kind::Unix(Transport::Stream)),
        0x32 => Some(Kind::Unix(Transport::Datagram)),
        _ => None,
    }
}

// The byte of a state: a function beside `code_of`, as `state_of` is beside `kind_of`.
pub fn state_byte(checksum: Checksum) -> u8
    ensures { result ≡ state_byte checksum }
{
    match checksum {
        Checksum::Absent => 0,
        Checksum::Matched => 1,
    }
}

// The state of a byte.
pub fn state_of(byte: u8) -> Option<Checksum>
    ensures { result ≡ state_of byte }
{
    match byte {
        0 => Some(Checksum::Absent),
        1 => Some(Checksum::Matched),
        _ => None,
    }
}
