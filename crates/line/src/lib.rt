// A version 1 line up to "TCP" or "UNKNOWN". Each field is read at its place in the bytes, and the next one stands behind it.
// (The bytes and the place are two arguments: a type for both is no plainer, since each clause speaks of the bytes from the place on, `drop at s.now`.)
// No public function has a `requires`.
#![tactic(auto)]

ghost use Rattle.std.specs.Prelude.{◌≡◌, ℕ, ◌+◌, ◌≤◌, ◌<◌, length, drop, IfOk};
ghost use Rattle.exact.specs.Field.{shift};
ghost use Rattle.exact.specs.Literal.{literal};
ghost use Rattle.fields.specs.LineFields.{tcps, unknown, words};
ghost use Rattle.fields.specs.Exactness.{address4, address6, line_field};
ghost use Rattle.answer.specs.Answers.{number_of};
ghost use Rattle.answer.specs.Headers.{told_line, Padded};
ghost use Rattle.answer.specs.Places.{told_found};

use answer::{Caller, Found, Refusal, Stop, place};
use exact::literal;
use line_body::{from_family, from_unknown_end};

// The word w, with so few bytes behind it.
fn word(s: &[u8], at: usize, w: &[u8], refusal: Refusal, behind: usize) -> Result<Found<()>, Stop>
    requires inside { at ≤ length s.now }
    requires few { length w.now + behind < 1000 }
    ensures verdict { told_found {B = ℕ} (λ u. 0) result ≡ shift at (literal (number_of refusal) behind 0 w.now (drop at s.now)) }
    ensures inside { IfOk result (λ f. f.end ≤ length s.now) }
{
    place(literal(&s[at..], w), at, refusal, behind)
}

fn from_tcp(s: &[u8], at: usize) -> Result<Found<Caller>, Stop>
    requires { at ≤ length s.now }
    ensures verdict { told_line result ≡ shift at ((tcps address4 address6).verdict (drop at s.now)) }
    ensures padded { IfOk result (λ f. Padded f.value) }
{
    // "6 :: :: 0 0" and CR LF are the shortest rest: 2 + 3 + 3 + 2 + 1 + 2.
    let tcp = word(s, at, b"TCP", Refusal::Word, 13)?;
    from_family(s, tcp.end)
}

fn from_unknown(s: &[u8], at: usize) -> Result<Found<Caller>, Stop>
    requires { at ≤ length s.now }
    ensures verdict { told_line result ≡ shift at (unknown.verdict (drop at s.now)) }
    ensures padded { IfOk result (λ f. Padded f.value) }
{
    // CR LF.
    let unknown = word(s, at, b"UNKNOWN", Refusal::Word, 2)?;
    from_unknown_end(s, unknown.end)
}

// Behind "PROXY ".
fn from_word(s: &[u8], at: usize) -> Result<Found<Caller>, Stop>
    ensures verdict { told_line result ≡ shift at ((words address4 address6).verdict (drop at s.now)) }
    ensures padded { IfOk result (λ f. Padded f.value) }
{
    match s.get(at) {
        // "UNKNOWN" and CR LF: 7 + 2.
        None => Err(Stop::More { least: 9 }),
        Some(b'U') => from_unknown(s, at),
        Some(_) => from_tcp(s, at),
    }
}

// A version 1 line.
pub fn line(s: &[u8]) -> Result<Found<Caller>, Stop>
    ensures verdict { told_line result ≡ line_field.verdict s.now }
    ensures padded { IfOk result (λ f. Padded f.value) }
{
    // "UNKNOWN" and CR LF.
    let proxy = word(s, 0, b"PROXY ", Refusal::Start, 9)?;
    from_word(s, proxy.end)
}
