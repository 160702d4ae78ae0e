// A row of a prefix table: whether its prefix is good, whether it is that of another row, and whether a source lies in it.
// Each function looks at the row that the bytes begin with; behind their end it takes zeros. No public function has a `requires`.
#![tactic(auto)]

ghost use Rattle.std.specs.Prelude.{◌≡◌};
ghost use Rattle.prefix.specs.Prefix.{row_of};
ghost use Rattle.prefix.specs.PrefixTests.{bits_fit, good_prefix, same_prefix, matches as matches_bits};

use address_bits::{clear_bits, same_bits};
use lent::{behind, byte_at, front};

// The 16 address bytes of a row.
fn address_of(row: &[u8]) -> &[u8]
    ensures { result.now ≡ (row_of row.now).address }
{
    front(behind(row, 3), 16)
}

// Whether the family is one, and has so many bits.
fn bits_fit(family: u8, bits: u8) -> bool
    ensures { result ≡ bits_fit family bits }
{
    match family {
        4 => bits <= 32,
        6 => bits <= 128,
        _ => false,
    }
}

// Whether the numbers of the row are in range, and no bit is set behind its prefix.
pub fn is_good(row: &[u8]) -> bool
    ensures { result ≡ good_prefix (row_of row.now) }
{
    let bits = byte_at(row, 1);
    bits_fit(byte_at(row, 0), bits) && byte_at(row, 2) <= 3 && clear_bits(address_of(row), bits)
}

// Whether two rows have the same prefix, whatever their levels.
pub fn same_prefix(row: &[u8], other: &[u8]) -> bool
    ensures { result ≡ same_prefix (row_of row.now) (row_of other.now) }
{
    byte_at(row, 0) == byte_at(other, 0)
        && byte_at(row, 1) == byte_at(other, 1)
        && same_bits(address_of(row), address_of(other), 128)
}

// Whether a source of this family lies in the row's prefix.
pub fn matches(row: &[u8], family: u8, source: &[u8]) -> bool
    ensures { result ≡ matches_bits (row_of row.now) family source.now }
{
    byte_at(row, 0) == family && same_bits(source, address_of(row), byte_at(row, 1))
}
