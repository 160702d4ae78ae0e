// Decimal text. No public function has a `requires`.
#![tactic(auto)]

ghost use Rattle.std.specs.Prelude.{◌≡◌, ℕ, ◌≤◌, IfSome, length};
ghost use Rattle.exact.specs.Claim.{Claim};
ghost use Rattle.exact.specs.Ended.{Ended};
ghost use Rattle.exact.specs.Scans.{told, Inside, IfAccepted};
ghost use Rattle.decimal.specs.Decimal.{Digit, Decimal};
ghost use Rattle.decimal.specs.DecimalVerdict.{digit, decimal_verdict};
ghost use Rattle.decimal.specs.Grows.{move_of};

use exact::Scan;

// The number of the digits that make n and the digit c behind them; none where c is no digit, or the number is over the bound.
fn grow(n: u32, c: u8, bound: u32) -> Option<u32>
    ensures leads { move_of result ≡ digit bound n c }
    ensures fits { IfSome result (λ m. m ≤ bound) }
{
    if !c.is_ascii_digit() {
        return None;
    }
    let m = n as u64 * 10 + (c - b'0') as u64;
    if m <= bound as u64 {
        Some(m as u32)
    } else {
        None
    }
}

// A decimal number up to the bound, with no leading zero, that the byte end ends. An end that is a digit ends the number where it
// first stands behind another digit.
pub fn decimal(s: &[u8], bound: u32, end: u8) -> Scan<u32>
    ensures verdict { (k m : ℕ) → told k m result ≡ decimal_verdict k m bound end s.now }
    ensures claim { (k : ℕ) → (Digit end → ⊥) → Claim (Ended (Decimal bound) end) (λ u. k) (told k 0 result) s.now }
    ensures inside { Inside (length s.now) 2 result }
    ensures fits { IfAccepted result (λ n. n ≤ bound) }
{
    let Some(&first) = s.first() else {
        return Scan::More(2);
    };
    let Some(mut n) = grow(0, first, bound) else {
        return Scan::Refused(0);
    };
    for i in 1..s.len() {
        let c = s[i];
        if c == end {
            return Scan::Accepted(n, i + 1);
        }
        let zero = n == 0;
        if zero {
            return Scan::Refused(i);
        }
        let Some(m) = grow(n, c, bound) else {
            return Scan::Refused(i);
        };
        n = m;
    }
    Scan::More(1)
}
