// Text composed in lent bytes. No public function has a `requires`.
#![tactic(auto)]

ghost use Rattle.std.specs.Prelude.{◌≡◌, [], ◌∷◌, ◌≤◌, ◌<◌};
ghost use Rattle.draft.specs.Numeral.{digit as digit_of, base_of, numeral, joined};
ghost use Rattle.draft.specs.Drafts.{drafted, text_of, Adds};

static DIGITS: [u8; 16] = *b"0123456789abcdef";

// The bases that numbers are written in.
#[derive(Clone, Copy)]
pub enum Base {
    Decimal,
    Hex,
}

// Bytes that are lent, and how many of them are text so far. Each method puts its text behind that, as far as there is room.
#[derive(Drop)]
pub struct Draft<'a> {
    pub bytes: &'a mut [u8],
    pub length: usize,
}

impl Base {
    fn get(self) -> u64
        ensures value { result ≡ base_of self }
        ensures range { (2 ≤ result) × (result ≤ 16) }
    {
        match self {
            Base::Decimal => 10,
            Base::Hex => 16,
        }
    }
}

// A digit, in a base up to 16.
fn digit(d: u64) -> u8
    requires { d < 16 }
    ensures { result ≡ digit_of d }
{
    DIGITS[d as usize]
}

impl<'a> Draft<'a> {
    // No text yet.
    pub fn over(bytes: &'a mut [u8]) -> Draft<'a>
        ensures same_bytes { result.bytes.ghost_name ≡ bytes.entry.ghost_name }
        ensures text { text_of result ≡ drafted bytes.old 0 }
    {
        Draft { bytes, length: 0 }
    }

    // One byte.
    pub fn push(&mut self, byte: u8)
        ensures { Adds self.old self.new (byte ∷ []) }
    {
        if self.length < self.bytes.len() {
            self.bytes[self.length] = byte;
            self.length += 1;
        }
    }

    // The bytes of a word.
    pub fn push_word(&mut self, word: &[u8])
        ensures { Adds self.old self.new word.now }
    {
        for &byte in word {
            self.push(byte);
        }
    }

    // A number in a base.
    pub fn push_number(&mut self, base: Base, n: u64)
        ensures { Adds self.old self.new (numeral (base_of base) n) }
    {
        let radix = base.get();
        let small = n < radix;
        if small {
            self.push(digit(n));
            return;
        }
        self.push_number(base, n / radix);
        self.push(digit(n % radix));
    }

    // Numbers in a base, with a byte between two.
    pub fn push_numbers(&mut self, base: Base, separator: u8, numbers: &[u16])
        ensures { Adds self.old self.new (joined (separator ∷ []) (numeral (base_of base)) numbers.now) }
    {
        let [first, rest @ ..] = numbers else {
            return;
        };
        self.push_number(base, u64::from(*first));
        for &n in rest {
            self.push(separator);
            self.push_number(base, u64::from(n));
        }
    }
}
