// TLV areas: bytes that TLVs fill, each a type, two length bytes (high first) and a value.
// No public function has a `requires`.
#![tactic(auto)]

ghost use Rattle.std.specs.Prelude.{◌≡◌, true, ◌⊎◌, ℕ, ◌≤◌, length};
ghost use Rattle.exact.specs.Claim.{Claim};
ghost use Rattle.exact.specs.Valueless.{Valueless};
ghost use Rattle.exact.specs.Scans.{present, Inside};
ghost use Rattle.tlv.specs.Tlv.{WellFormed, Filled};
ghost use Rattle.tlv.specs.RegionVerdict.{good, judge};

use exact::Scan;

// Whether a length is good: TLVs can fill what a value of that size leaves of the room behind the head.
fn is_good(size: usize, room: usize) -> bool
    ensures { result ≡ good size room }
{
    size == room || (3 <= room && size <= room - 3)
}

// Judges the area of n bytes that s begins with; bytes behind it are not looked at. More with all that is missing, if s is shorter and can
// still be completed. TLVs fill no area of 1 or 2 bytes: its first byte is refused, and before it the answer is More.
pub fn region(s: &[u8], n: usize) -> Scan<()>
    ensures verdict { (k m : ℕ) → present k m result ≡ judge k m n s.now }
    ensures claim { (k : ℕ) → (n ≡ 0) ⊎ (3 ≤ n) → Claim (Valueless (Filled n)) (λ u. k) (present k 0 result) s.now }
    ensures inside { Inside (length s.now) n result }
{
    let mut i: usize = 0;
    // A loop over places: the answer is the place of a dead type or length byte, which an iterator over TLVs or a slice pattern's rest does not say.
    while i < n {
        if s.len() <= i {
            return Scan::More(n - s.len());
        }
        // Only at 0: a good length leaves nothing, or three bytes at least.
        if n - i < 3 {
            return Scan::Refused(i);
        }
        if s.len() <= i + 1 {
            return Scan::More(n - s.len());
        }
        let room = n - i - 3;
        let high = (s[i + 1] as usize) * 256;
        if room < high {
            return Scan::Refused(i + 1);
        }
        if s.len() <= i + 2 {
            return Scan::More(n - s.len());
        }
        let size = high + (s[i + 2] as usize);
        if is_good(size, room) {
            i = i + 3 + size;
        } else {
            return Scan::Refused(i + 2);
        }
    }
    if s.len() < n {
        Scan::More(n - s.len())
    } else {
        Scan::Accepted((), n)
    }
}

// Whether TLVs fill s; the empty area is well-formed.
pub fn well_formed(s: &[u8]) -> bool
    ensures { (result ≡ true → WellFormed s.now) × (WellFormed s.now → result ≡ true) }
{
    matches!(region(s, s.len()), Scan::Accepted(_, _))
}
