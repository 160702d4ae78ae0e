// A 32-bit number in network order. No public function has a `requires`.
#![tactic(auto)]

ghost use Rattle.std.specs.Prelude.{◌≡◌, [], ◌∷◌};
ghost use Rattle.network32.specs.Network32.{network32, number32_at};

// The bytes of a number, high byte first.
pub fn network_bytes(n: u32) -> [u8; 4]
    ensures { result ≡ network32 n }
{
    n.to_be_bytes()
}

// The number of four bytes, high byte first.
pub fn network_number(a: u8, b: u8, c: u8, d: u8) -> u32
    ensures { result ≡ number32_at (a ∷ b ∷ c ∷ d ∷ []) 0 }
{
    u32::from_be_bytes([a, b, c, d])
}
