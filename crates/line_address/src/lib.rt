// The addresses of a TCP line: IPv4 or IPv6 text that a space ends, as the bytes of the address. No public function has a `requires`.
#![tactic(auto)]

ghost use Rattle.std.specs.Prelude.{◌≡◌, ℕ};
ghost use Rattle.line_address.specs.Families.{told_bytes, padded, Padded, tcp_kind, shortest_address, width, field};

use exact::Scan;
use ip4::ip4;
use record::{Kind, Transport};
use std::net::Ipv6Addr;

/// What the addresses of a TCP line are: TCP4's or TCP6's.
#[derive(Clone, Copy)]
pub enum Inet {
    V4,
    V6,
}

impl Inet {
    pub fn kind(self) -> Kind
        ensures { result ≡ tcp_kind self }
    {
        match self {
            Inet::V4 => Kind::Ip4(Transport::Stream),
            Inet::V6 => Kind::Ip6(Transport::Stream),
        }
    }

    /// How many bytes the shortest address has, with the space that ends it: "0.0.0.0 " or ":: ".
    pub fn shortest(self) -> usize
        ensures { result ≡ shortest_address self }
    {
        match self {
            Inet::V4 => 8,
            Inet::V6 => 3,
        }
    }
}

// The octets at the front of sixteen bytes, with zeros behind them.
fn padded(octets: [u8; 4]) -> [u8; 16]
    ensures { result ≡ padded octets }
{
    let [a, b, c, d] = octets;
    [a, b, c, d, 0, 0, 0, 0, 0, 0, 0, 0, 0, 0, 0, 0]
}

/// The address of a TCP line, at the front of sixteen bytes, with zeros behind it.
// (The arms of `More` and `Refused` stand twice: the two scans are of two types, and one function over both would take a closure, which is longer.)
pub fn address(s: &[u8], inet: Inet) -> Scan<[u8; 16]>
    ensures verdict { (m : ℕ) → told_bytes (width inet) m result ≡ (field inet m).verdict s.now }
    ensures padded { Padded (width inet) result }
{
    match inet {
        Inet::V4 => match ip4(s, b' ') {
            Scan::Accepted(octets, size) => Scan::Accepted(padded(octets), size),
            Scan::More(least) => Scan::More(least),
            Scan::Refused(place) => Scan::Refused(place),
        },
        Inet::V6 => match ip6::address(s, b' ') {
            Scan::Accepted(groups, size) => {
                Scan::Accepted(Ipv6Addr::from(groups).octets(), size)
            }
            Scan::More(least) => Scan::More(least),
            Scan::Refused(place) => Scan::Refused(place),
        },
    }
}
