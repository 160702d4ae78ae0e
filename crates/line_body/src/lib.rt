// A version 1 line behind "TCP" or "UNKNOWN". Each field is read at its place in the bytes, and the next one stands behind it.
// (The bytes and the place are two arguments: a type for both is no plainer, since each clause speaks of the bytes from the place on, `drop at s.now`.)
// No public function has a `requires`.
#![tactic(auto)]

ghost use Rattle.std.specs.Prelude.{◌≡◌, ◌≤◌, ◌<◌, [], ◌∷◌, length, drop, take, IfOk};
ghost use Rattle.exact.specs.Field.{shift};
ghost use Rattle.exact.specs.Literal.{literal};
ghost use Rattle.decimal.specs.DecimalVerdict.{decimal_verdict};
ghost use Rattle.record.specs.declared.Kind.TheVariants.{Unspecified};
ghost use Rattle.record.specs.Records.{bare};
ghost use Rattle.fields.specs.LineFields.{lined, line_feed, from_source, unknown_end, families, from_rest};
ghost use Rattle.fields.specs.Exactness.{address4, address6};
ghost use Rattle.answer.specs.Answers.{number_of};
ghost use Rattle.answer.specs.Headers.{told_line, Padded};
ghost use Rattle.answer.specs.Places.{told_found, told_end};
ghost use Rattle.line_address.specs.Families.{tcp_kind, width, field, padded};
ghost use Rattle.line_body.specs.Stages.{from_space};

use answer::{Caller, Found, Refusal, Stop, of_kind, place};
use decimal::decimal;
use line_address::{Inet, address};
use line_end::line_end;
use record::Kind;

// The byte c, with so few bytes behind it.
fn byte(s: &[u8], at: usize, c: u8, refusal: Refusal, behind: usize) -> Result<usize, Stop>
    requires { behind < 100 }
    ensures verdict { told_end result ≡ shift at (literal (number_of refusal) behind 0 (c ∷ []) (drop at s.now)) }
    ensures inside { IfOk result (λ end. end ≤ length s.now) }
{
    match s.get(at) {
        None => Err(Stop::More { least: behind + 1 }),
        Some(&b) if b == c => Ok(at + 1),
        Some(_) => Err(Stop::Refused { refusal, place: at }),
    }
}

// An address and the space that ends it.
fn address_at(s: &[u8], at: usize, inet: Inet, behind: usize) -> Result<Found<[u8; 16]>, Stop>
    requires inside { at ≤ length s.now }
    requires few { behind < 100 }
    ensures verdict { told_found (take (width inet)) result ≡ shift at ((field inet behind).verdict (drop at s.now)) }
    ensures padded { IfOk result (λ f. f.value ≡ padded (take (width inet) f.value)) }
    ensures inside { IfOk result (λ f. f.end ≤ length s.now) }
{
    place(address(&s[at..], inet), at, Refusal::Address, behind)
}

// A port and the byte that ends it.
fn port(s: &[u8], at: usize, end: u8, behind: usize) -> Result<Found<u16>, Stop>
    requires inside { at ≤ length s.now }
    requires few { behind < 100 }
    ensures verdict { told_found (λ p. p) result ≡ shift at (decimal_verdict 4 behind 65535 end (drop at s.now)) }
    ensures inside { IfOk result (λ f. f.end ≤ length s.now) }
{
    let number = place(decimal(&s[at..], 65535, end), at, Refusal::Port, behind)?;
    Ok(Found {
        value: number.value as u16,
        end: number.end,
    })
}

// Behind "TCP4 " or "TCP6 ".
fn from_source(s: &[u8], at: usize, inet: Inet) -> Result<Found<Caller>, Stop>
    requires { at ≤ length s.now }
    ensures verdict { told_line result ≡ shift at ((from_source (tcp_kind inet) (field inet)).verdict (drop at s.now)) }
    ensures padded { IfOk result (λ f. Padded f.value) }
{
    // The destination, "0 0" and CR LF: 2 + 1 + 2; behind the source port "0" and CR LF.
    let Found { value: source, end } = address_at(s, at, inet, inet.shortest() + 5)?;
    let Found {
        value: destination,
        end,
    } = address_at(s, end, inet, 5)?;
    let Found {
        value: source_port,
        end,
    } = port(s, end, b' ', 3)?;
    let Found {
        value: destination_port,
        end,
    } = port(s, end, b'\r', 1)?;
    let end = byte(s, end, b'\n', Refusal::End, 0)?;
    let caller = Caller {
        kind: inet.kind(),
        source,
        destination,
        source_port,
        destination_port,
    };
    Ok(Found { value: caller, end })
}

// The space behind the word.
fn from_space(s: &[u8], at: usize, inet: Inet) -> Result<Found<Caller>, Stop>
    ensures verdict { told_line result ≡ shift at ((from_space inet).verdict (drop at s.now)) }
    ensures padded { IfOk result (λ f. Padded f.value) }
{
    // Two addresses, "0 0" and CR LF.
    let end = byte(s, at, b' ', Refusal::Word, 2 * inet.shortest() + 5)?;
    from_source(s, end, inet)
}

// Behind "TCP": 4 or 6. (Public, as `from_unknown_end`: `line` goes on here.)
#[tactic(auto, using(crate::proofs::Choices::family_six))]
pub fn from_family(s: &[u8], at: usize) -> Result<Found<Caller>, Stop>
    ensures verdict { told_line result ≡ shift at ((families address4 address6).verdict (drop at s.now)) }
    ensures padded { IfOk result (λ f. Padded f.value) }
{
    match s.get(at) {
        // "6 :: :: 0 0" and CR LF: 2 + 3 + 3 + 2 + 1 + 2.
        None => Err(Stop::More { least: 13 }),
        Some(b'4') => from_space(s, at + 1, Inet::V4),
        Some(b'6') => from_space(s, at + 1, Inet::V6),
        Some(_) => Err(Stop::Refused {
            refusal: Refusal::Word,
            place: at,
        }),
    }
}

// The LF of "UNKNOWN" and CR LF.
fn short_end(s: &[u8], at: usize) -> Result<Found<Caller>, Stop>
    ensures verdict { told_line result ≡ shift at ((line_feed (lined (bare Unspecified))).verdict (drop at s.now)) }
    ensures padded { IfOk result (λ f. Padded f.value) }
{
    let end = byte(s, at, b'\n', Refusal::End, 0)?;
    Ok(Found {
        value: of_kind(Kind::Unspecified),
        end,
    })
}

// Behind "PROXY UNKNOWN ": 14 of the line's 107 bytes have come.
fn from_rest(s: &[u8], at: usize) -> Result<Found<Caller>, Stop>
    requires { at ≤ length s.now }
    ensures verdict { told_line result ≡ shift at (from_rest.verdict (drop at s.now)) }
    ensures padded { IfOk result (λ f. Padded f.value) }
{
    let rest = place(line_end(&s[at..], 93), at, Refusal::End, 0)?;
    Ok(Found {
        value: of_kind(Kind::Unspecified),
        end: rest.end,
    })
}

// Behind "UNKNOWN": CR LF at once, or a space.
pub fn from_unknown_end(s: &[u8], at: usize) -> Result<Found<Caller>, Stop>
    ensures verdict { told_line result ≡ shift at (unknown_end.verdict (drop at s.now)) }
    ensures padded { IfOk result (λ f. Padded f.value) }
{
    match s.get(at) {
        None => Err(Stop::More { least: 2 }),
        Some(b'\r') => short_end(s, at + 1),
        Some(b' ') => from_rest(s, at + 1),
        Some(_) => Err(Stop::Refused {
            refusal: Refusal::Word,
            place: at,
        }),
    }
}
