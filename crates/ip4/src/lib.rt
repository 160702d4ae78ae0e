// IPv4 text. No public function has a `requires`.
#![tactic(auto)]

ghost use Rattle.std.specs.Prelude.{◌≡◌, ℕ, length};
ghost use Rattle.exact.specs.Claim.{Claim};
ghost use Rattle.exact.specs.Ended.{Ended};
ghost use Rattle.exact.specs.Scans.{told, Inside};
ghost use Rattle.decimal.specs.Decimal.{Digit};
ghost use Rattle.ip4.specs.Ip4.{Address};
ghost use Rattle.ip4.specs.Ip4Verdict.{ip4_verdict};

use decimal::decimal;
use exact::Scan;

// Four decimals up to 255, as `decimal` reads them: each ended by a dot, and the last by the byte end.
pub fn ip4(s: &[u8], end: u8) -> Scan<[u8; 4]>
    ensures verdict { (k m : ℕ) → told k m result ≡ ip4_verdict k m end s.now }
    ensures claim { (k : ℕ) → (Digit end → ⊥) → Claim (Ended Address end) (λ u. k) (told k 0 result) s.now }
    ensures inside { Inside (length s.now) 8 result }
{
    let mut octets = [0u8; 4];
    let mut at: usize = 0;
    for i in 0..4 {
        let stop = if i < 3 { b'.' } else { end };
        match decimal(&s[at..], 255, stop) {
            Scan::Accepted(n, size) => {
                octets[i] = n as u8;
                at += size;
            }
            Scan::More(least) => return Scan::More(least + 2 * (3 - i)),
            Scan::Refused(place) => return Scan::Refused(at + place),
        }
    }
    Scan::Accepted(octets, at)
}
