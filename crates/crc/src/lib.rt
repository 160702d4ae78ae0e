// CRC32C: the register goes through the bytes eight at a time, each half byte by a row of the table. No public function has a `requires`.
#![tactic(auto)]

ghost use Rattle.std.specs.Prelude.{◌≡◌, [], ◌∷◌, ◌+◌, ◌*◌, ◌%◌, ◌≤◌, ◌<◌};
ghost use Rattle.std.specs.Int.Bits.{bit_xor};
ghost use Rattle.crc.specs.Crc.{bits, byte, register, checksum, cleared};

mod table;

use table::TABLE;

// What the bits of `row` + 1 bytes make of the low byte of x with b put onto it. Half of the byte is looked up at a time.
fn entry(row: usize, x: u32, b: u8) -> u32
    requires { row < 8 }
    ensures { result ≡ bits ((row + 1) * 8) (bit_xor x b % 256) }
{
    let low = ((x ^ b as u32) % 256) as usize;
    TABLE[row * 32 + 16 + low % 16] ^ TABLE[row * 32 + low / 16]
}

// The register after one byte.
fn one(state: u32, b: u8) -> u32
    ensures { result ≡ byte state b }
{
    entry(0, state, b) ^ (state >> 8)
}

// What the bits of `row` bytes make of the register after four bytes. Each byte is looked up by itself.
fn four(row: usize, state: u32, a: u8, b: u8, c: u8, d: u8) -> u32
    requires { row ≤ 4 }
    ensures { result ≡ bits (row * 8) (register state (a ∷ b ∷ c ∷ d ∷ [])) }
{
    let first = entry(row + 3, state, a);
    let second = entry(row + 2, state >> 8, b);
    let third = entry(row + 1, state >> 16, c);
    let fourth = entry(row, state >> 24, d);
    first ^ (second ^ (third ^ fourth))
}

// The register after eight bytes. What does not wait for the register comes first.
fn eight(state: u32, bytes: &[u8; 8]) -> u32
    ensures { result ≡ register state bytes.now }
{
    let second = four(0, 0, bytes[4], bytes[5], bytes[6], bytes[7]);
    four(4, state, bytes[0], bytes[1], bytes[2], bytes[3]) ^ second
}

// The register after the bytes.
fn crc_part(state: u32, bytes: &[u8]) -> u32
    ensures { result ≡ register state bytes.now }
{
    let (eights, rest) = bytes.as_chunks::<8>();
    let mut r = state;
    for next in eights {
        r = eight(r, next);
    }
    for b in rest {
        r = one(r, *b);
    }
    r
}

// The checksum of the bytes.
pub fn crc32c(bytes: &[u8]) -> u32
    ensures { result ≡ checksum bytes.now }
{
    crc_part(0xffffffff, bytes) ^ 0xffffffff
}

// The checksum of the bytes with the four at this place taken as zero; they are neither altered nor copied.
pub fn crc32c_cleared(bytes: &[u8], at: usize) -> u32
    ensures { result ≡ checksum (cleared at bytes.now) }
{
    let before = crc_part(0xffffffff, lent::front(bytes, at));
    let zeros = crc_part(before, &[0; 4]);
    let rest = lent::behind(lent::behind(bytes, at), 4);
    crc_part(zeros, rest) ^ 0xffffffff
}
