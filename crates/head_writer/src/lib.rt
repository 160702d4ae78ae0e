// The sixteen bytes before a block, put into an output. No public function has a `requires`.
#![tactic(auto)]

ghost use Rattle.std.specs.Prelude.{◌≡◌};
ghost use Rattle.lent.specs.Placed.{placed};
ghost use Rattle.head_writer.specs.Head.{command_of, head_of};

use lent::put;
use record::{Kind, kind_byte};

// Byte 12: version 2, and LOCAL or PROXY.
fn command(kind: Kind) -> u8
    ensures { result ≡ command_of kind }
{
    match kind {
        Kind::Local => 0x20,
        Kind::Unspecified | Kind::Ip4(_) | Kind::Ip6(_) | Kind::Unix(_) => 0x21,
    }
}

// Puts the sixteen bytes before a block of this size, where they fit: the signature, bytes 12 and 13, and the length.
pub fn put_head(kind: Kind, size: u16, out: &mut [u8])
    ensures { out.new ≡ placed (head_of kind size) 0 out.old }
{
    let [high, low] = size.to_be_bytes();
    let head = [
        0x0D,
        0x0A,
        0x0D,
        0x0A,
        0x00,
        0x0D,
        0x0A,
        0x51,
        0x55,
        0x49,
        0x54,
        0x0A,
        command(kind),
        kind_byte(kind),
        high,
        low,
    ];
    put(&head, out, 0);
}
