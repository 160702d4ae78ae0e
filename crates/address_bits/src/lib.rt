// The bits of addresses, as prefixes speak of them: whether the first ones of two are equal, and whether none is set behind a prefix.
// Bytes behind the end of an address count as zero. No public function has a `requires`.
#![tactic(auto)]

ghost use Rattle.std.specs.Prelude.{◌≡◌};
ghost use Rattle.address_bits.specs.Bits.{same_bits, clear_bits};

use lent::byte_at;

// Whether the first bits of two addresses are equal, so many of them.
pub fn same_bits(one: &[u8], other: &[u8], bits: u8) -> bool
    ensures { result ≡ same_bits bits one.now other.now }
{
    let whole = (bits / 8) as usize;
    for i in 0..whole {
        if byte_at(one, i) != byte_at(other, i) {
            return false;
        }
    }
    let rest = 8 - bits % 8;
    (byte_at(one, whole) as u16) >> rest == (byte_at(other, whole) as u16) >> rest
}

// Whether no bit of an address is set behind a prefix of so many bits.
pub fn clear_bits(address: &[u8], bits: u8) -> bool
    ensures { result ≡ clear_bits bits address.now }
{
    if 128 <= bits {
        return true;
    }
    let whole = (bits / 8) as usize;
    let behind = 8 - bits % 8;
    if (byte_at(address, whole) as u16) % (1 << behind) != 0 {
        return false;
    }
    for i in whole + 1..16 {
        if byte_at(address, i) != 0 {
            return false;
        }
    }
    true
}
