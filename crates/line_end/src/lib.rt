// The end of an UNKNOWN line. No public function has a `requires`.
#![tactic(auto)]

ghost use Rattle.std.specs.Prelude.{◌≡◌, ℕ, ◌≤◌, length};
ghost use Rattle.exact.specs.Claim.{Claim};
ghost use Rattle.exact.specs.Valueless.{Valueless};
ghost use Rattle.exact.specs.Scans.{present, Inside};
ghost use Rattle.line_end.specs.Line.{FirstEnd};
ghost use Rattle.line_end.specs.LineVerdict.{line_verdict};

use exact::Scan;

// The end of a line of at most limit bytes: the first CR followed by LF. A byte behind which no end fits is refused. No end fits into 0 or 1
// bytes: then the first byte is refused, and before it the answer is More.
pub fn line_end(s: &[u8], limit: usize) -> Scan<()>
    ensures verdict { (k m : ℕ) → present k m result ≡ line_verdict k m limit s.now }
    ensures claim { (k : ℕ) → 2 ≤ limit → Claim (Valueless (FirstEnd limit)) (λ u. k) (present k 0 result) s.now }
    ensures inside { Inside (length s.now) 2 result }
{
    let mut i: usize = 0;
    let mut cr = false;
    // This form is promised (docs/DECISIONS.md, docs/TRACE.md): a loop over the line's bytes that yields the end's place by break.
    let end = loop {
        if s.len() <= i {
            return Scan::More(if cr { 1 } else { 2 });
        }
        let c = s[i];
        if cr {
            if c == b'\n' {
                break i;
            }
        }
        let least = if c == b'\r' { 2 } else { 3 };
        if limit - i < least {
            return Scan::Refused(i);
        }
        cr = c == b'\r';
        i += 1;
    };
    Scan::Accepted((), end + 1)
}
