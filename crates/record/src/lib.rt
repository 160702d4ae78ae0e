// The record: what a header says of a caller, a kind, two addresses and two ports, and the state of its checksum. No public function has a `requires`.
#![tactic(auto)]

ghost use Rattle.std.specs.Prelude.{◌≡◌};
ghost use Rattle.record.specs.Records.{with_checksum, bare};
ghost use Rattle.record.specs.Kinds.{family, byte_of, address_length, port_length, block_length};

// How a connection carries its bytes.
#[derive(Clone, Copy)]
pub enum Transport {
    Stream,
    Datagram,
}

// Which family of addresses a record has, if any; a family carries its transport.
#[derive(Clone, Copy)]
pub enum Kind {
    Local,
    Unspecified,
    Ip4(Transport),
    Ip6(Transport),
    Unix(Transport),
}

// What a record says of its header's checksum: that there is none, or none was looked for; or that it is right.
#[derive(Clone, Copy)]
pub enum Checksum {
    Absent,
    Matched,
}

// Addresses of 4, 16 or 108 bytes are held by value, at the front of their array; bytes and ports that the kind does not use are zero.
#[derive(Clone, Copy)]
pub struct Record {
    pub kind: Kind,
    pub source: [u8; 108],
    pub destination: [u8; 108],
    pub source_port: u16,
    pub destination_port: u16,
    pub checksum: Checksum,
}

// The record with this state.
pub fn with_checksum(from: Record, checksum: Checksum) -> Record
    ensures { result ≡ with_checksum checksum from }
{
    Record { checksum, ..from }
}

// The record that says nothing of a caller, of this kind.
pub fn blank(kind: Kind) -> Record
    ensures { result ≡ bare kind }
{
    Record {
        kind,
        source: [0; 108],
        destination: [0; 108],
        source_port: 0,
        destination_port: 0,
        checksum: Checksum::Absent,
    }
}

// The kind of byte 13 under PROXY.
pub fn family_of(byte: u8) -> Option<Kind>
    ensures { result ≡ family byte }
{
    match byte {
        0x00 | 0x01 | 0x02 | 0x10 | 0x20 | 0x30 => Some(Kind::Unspecified),
        0x11 => Some(Kind::Ip4(Transport::Stream)),
        0x12 => Some(Kind::Ip4(Transport::Datagram)),
        0x21 => Some(Kind::Ip6(Transport::Stream)),
        0x22 => Some(Kind::Ip6(Transport::Datagram)),
        0x31 => Some(Kind::Unix(Transport::Stream)),
        0x32 => Some(Kind::Unix(Transport::Datagram)),
        _ => None,
    }
}

// Byte 13 of the kind; unspecified and local are written as 00. A function, and no `From<Kind> for u8`: a kind has another number, its code
// (crate kind_code), and `u8::from(kind)` would not say which.
pub fn kind_byte(kind: Kind) -> u8
    ensures { result ≡ byte_of kind }
{
    match kind {
        Kind::Local | Kind::Unspecified => 0x00,
        Kind::Ip4(Transport::Stream) => 0x11,
        Kind::Ip4(Transport::Datagram) => 0x12,
        Kind::Ip6(Transport::Stream) => 0x21,
        Kind::Ip6(Transport::Datagram) => 0x22,
        Kind::Unix(Transport::Stream) => 0x31,
        Kind::Unix(Transport::Datagram) => 0x32,
    }
}

// How many bytes of an address array the kind uses.
pub fn address_length(kind: Kind) -> usize
    ensures { result ≡ address_length kind }
{
    match kind {
        Kind::Local | Kind::Unspecified => 0,
        Kind::Ip4(_) => 4,
        Kind::Ip6(_) => 16,
        Kind::Unix(_) => 108,
    }
}

// How many bytes a port of the kind has.
pub fn port_length(kind: Kind) -> usize
    ensures { result ≡ port_length kind }
{
    match kind {
        Kind::Ip4(_) | Kind::Ip6(_) => 2,
        Kind::Local | Kind::Unspecified | Kind::Unix(_) => 0,
    }
}

// How many bytes the kind's address block has.
pub fn block_length(kind: Kind) -> usize
    ensures { result ≡ block_length kind }
{
    match kind {
        Kind::Local | Kind::Unspecified => 0,
        Kind::Ip4(_) => 12,
        Kind::Ip6(_) => 36,
        Kind::Unix(_) => 216,
    }
}
