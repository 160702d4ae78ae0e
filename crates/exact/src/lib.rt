// Verdicts on the fields of a header. The definitions and laws are in specs/; here is what a scan of one field answers, and the literal field.
// No public function has a `requires`.
#![tactic(auto)]

ghost use Rattle.std.specs.Prelude.{◌≡◌, ℕ, length};
ghost use Rattle.exact.specs.Claim.{Claim};
ghost use Rattle.exact.specs.Valueless.{Valueless};
ghost use Rattle.exact.specs.Network.{number as number_of};
ghost use Rattle.exact.specs.Scans.{present, Inside};
ghost use Rattle.exact.specs.Literal.{Common, literal as literal_of};

// What a scan of a field finds. A field that says nothing but that it is there has the value ().
#[derive(Clone, Copy)]
pub enum Scan<T> {
    // The field's value, and how many bytes it has with its end.
    Accepted(T, usize),
    // How few further bytes could finish the field.
    More(usize),
    // The place of the byte that rules the field out.
    Refused(usize),
}

// How many first bytes s and w have in common.
fn common(s: &[u8], w: &[u8]) -> usize
    ensures { Common s.now w.now result }
{
    let most = s.len().min(w.len());
    for i in 0..most {
        if s[i] != w[i] {
            return i;
        }
    }
    most
}

// The bytes of w, one after the other; where w is empty that is no byte, accepted at once. The whole word is compared at once; byte by byte only
// what is none.
pub fn literal(s: &[u8], w: &[u8]) -> Scan<()>
    ensures verdict { (k m : ℕ) → present k m result ≡ literal_of k m 0 w.now s.now }
    ensures claim { (k : ℕ) → Claim (Valueless (λ f. f ≡ w.now)) (λ u. k) (present k 0 result) s.now }
    ensures inside { Inside (length s.now) (length w.now) result }
{
    let whole = s.starts_with(w);
    if whole {
        return Scan::Accepted((), w.len());
    }
    let n = common(s, w);
    if n == s.len() {
        return Scan::More(w.len() - n);
    }
    Scan::Refused(n)
}

// The number of two bytes, high byte first.
pub fn number(high: u8, low: u8) -> u16
    ensures { result ≡ number_of high low }
{
    u16::from_be_bytes([high, low])
}
