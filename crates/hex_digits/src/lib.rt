// Hex digits, by look-up. No public function has a `requires`.
#![tactic(auto)]

ghost use Rattle.std.specs.Prelude.{◌≡◌};
ghost use Rattle.hex_digits.specs.Hex.{hex_of};

mod table;

use table::{HEX_ENTRIES, VALUES};

// The value of a hex digit, in either case, and 16 for any other byte.
pub fn hex_value(c: u8) -> u8
    ensures { result ≡ hex_of c }
{
    let i = c as usize;
    if HEX_ENTRIES <= i {
        return 16;
    }
    VALUES[i]
}
