// Whether what a kind does not use is zero, and the checksum state may stand beside it. No public function has a `requires`.
#![tactic(auto)]

ghost use Rattle.std.specs.Prelude.{◌≡◌, true, ◌≤◌, length};
ghost use Rattle.record.specs.Records.{Clean, Plain};
ghost use Rattle.clean.specs.Unused.{zeros, clean_address, clean_port, is_absent, clean_state, clean_test, plain_test};

use record::{Checksum, Kind, Record, address_length};

static ZEROS: [u8; 108] = [0; 108];

// Whether the bytes are zero, of an address at most.
fn is_zero(bytes: &[u8]) -> bool
    requires { length bytes.now ≤ 108 }
    ensures { result ≡ zeros bytes.now }
{
    bytes == &ZEROS[..bytes.len()]
}

// Whether the address bytes that the kind does not use are zero.
fn clean_address(kind: Kind, address: &[u8; 108]) -> bool
    ensures { result ≡ clean_address kind address.now }
{
    is_zero(&address[address_length(kind)..])
}

// Whether the port is zero, or the kind has ports.
fn clean_port(kind: Kind, port: u16) -> bool
    ensures { result ≡ clean_port kind port }
{
    match kind {
        Kind::Ip4(_) | Kind::Ip6(_) => true,
        Kind::Local | Kind::Unspecified | Kind::Unix(_) => port == 0,
    }
}

// Whether the state is absent.
pub fn is_absent(checksum: Checksum) -> bool
    ensures { result ≡ is_absent checksum }
{
    matches!(checksum, Checksum::Absent)
}

// Whether the state is absent, or the kind has addresses.
pub fn clean_state(kind: Kind, checksum: Checksum) -> bool
    ensures { result ≡ clean_state kind checksum }
{
    match kind {
        Kind::Local | Kind::Unspecified => is_absent(checksum),
        Kind::Ip4(_) | Kind::Ip6(_) | Kind::Unix(_) => true,
    }
}

// Whether the address bytes and ports that the record's kind does not use are zero, and its state may stand beside the kind.
pub fn clean(r: &Record) -> bool
    ensures { (result ≡ clean_test r.now) × (result ≡ true → Clean r.now) × (Clean r.now → result ≡ true) }
{
    clean_address(r.kind, &r.source)
        && clean_address(r.kind, &r.destination)
        && clean_port(r.kind, r.source_port)
        && clean_port(r.kind, r.destination_port)
        && clean_state(r.kind, r.checksum)
}

// Whether the record is clean, and its state absent.
pub fn plain(r: &Record) -> bool
    ensures { (result ≡ plain_test r.now) × (result ≡ true → Plain r.now) × (Plain r.now → result ≡ true) }
{
    clean(r) && is_absent(r.checksum)
}
