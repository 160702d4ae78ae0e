// IPv6 text: a group and a colon part by turns, until the byte that ends the address (`Address` of specs/Address.antt).
// No public function has a `requires`.
//
// An address so far is the first count of its groups, with zeros behind them. "::" counts as one group, a zero; gap counts the groups up to
// and with it, and is 0 while it has not come.
#![tactic(auto)]

ghost use Rattle.std.specs.Prelude.{◌≡◌, ℕ, ◌+◌, ◌^◌, ◌<◌, length};
ghost use Rattle.exact.specs.Claim.{Claim};
ghost use Rattle.exact.specs.Ended.{Ended};
ghost use Rattle.exact.specs.Machine.{run};
ghost use Rattle.exact.specs.Scans.{told, Inside};
ghost use Rattle.ip6.specs.Address.{Address, Ending};
ghost use Rattle.ip6.specs.Machine.{start, digits, behind, least_address, step};
ghost use Rattle.ip6.specs.Partial.{Sized, sofar, gathered_of, spread};
ghost use Rattle.ip6.specs.Answer.{From, Closed};

use colon_part::{Part, colon_part, least_behind};
use exact::Scan;
use hex_digits::hex_value;

// Zeros for all that "::" stands for: the groups behind it move to the end, the last one first. The loop stays: std's `rotate_right` keeps
// 4 KB of stack ready, and include/dawnhawse.h promises C callers less.
fn spread_out(groups: &mut [u16; 8], count: usize, gap: usize)
    requires { Sized (sofar groups.old count gap) }
    ensures { groups.new ≡ spread (sofar groups.old count gap) }
{
    let missing = 8 - count;
    let mut i = count;
    while gap < i {
        i -= 1;
        let v = groups[i];
        groups[i] = 0;
        groups[i + missing] = v;
    }
}

// The address ends at place i.
fn finished(groups: &mut [u16; 8], count: usize, gap: usize, i: usize) -> Scan<()>
    requires { Sized (sofar groups.old count gap) × (i + 1 < 2 ^ 64) }
    ensures { Closed i (gathered_of (sofar groups.old count gap)) result groups.new }
{
    if gap == 0 {
        if count == 8 {
            Scan::Accepted((), i + 1)
        } else {
            Scan::Refused(i)
        }
    } else {
        spread_out(groups, count, gap);
        Scan::Accepted((), i + 1)
    }
}

// A group begins at place i.
#[cycle(colon_group)]
fn group(s: &[u8], i: usize, end: u8, groups: &mut [u16; 8], count: usize, gap: usize) -> Scan<()>
    requires { Sized (sofar groups.old count gap) × (count < 8) × (length s.now < 2 ^ 64) }
    ensures { From end s.now i (digits (gathered_of (sofar groups.old count gap)) 0 0) result groups.new }
{
    let mut v: u16 = 0;
    let mut n: usize = 0;
    for at in i..s.len() {
        let d = hex_value(s[at]);
        if d == 16 {
            let empty = n == 0;
            if empty {
                return Scan::Refused(at);
            }
            groups[count] = v;
            return colon(s, at, end, groups, count + 1, gap);
        }
        let full = n == 4;
        if full {
            return Scan::Refused(at);
        }
        v = v * 16 + d as u16;
        n += 1;
    }
    let behind = least_behind(count + 1, gap);
    Scan::More(if n == 0 { behind + 1 } else { behind })
}

// A colon part, or the end, stands at place i.
#[cycle(colon_group)]
fn colon(s: &[u8], i: usize, end: u8, groups: &mut [u16; 8], count: usize, gap: usize) -> Scan<()>
    requires { Sized (sofar groups.old count gap) × (length s.now < 2 ^ 64) }
    ensures { From end s.now i (behind (gathered_of (sofar groups.old count gap))) result groups.new }
{
    match colon_part(s, i, end, count, gap) {
        Part::More(least) => Scan::More(least),
        Part::Refused(dead) => Scan::Refused(dead),
        Part::End { at, count, gap } => finished(groups, count, gap, at),
        Part::Group { at, count, gap } => group(s, at, end, groups, count, gap),
    }
}

// The answer from the first byte on.
fn begun(s: &[u8], end: u8, groups: &mut [u16; 8]) -> Scan<()>
    requires { Sized (sofar groups.old 0 0) }
    ensures { From end s.now 0 start result groups.new }
{
    if s.len() == 0 {
        return Scan::More(3);
    }
    if s[0] == b':' {
        colon(s, 0, end, groups, 0, 0)
    } else {
        group(s, 0, end, groups, 0, 0)
    }
}

// An address that the byte end ends. A hex digit or a colon is no such byte: as end it ends an address right behind "::" only, and is part
// of the address elsewhere.
pub fn address(s: &[u8], end: u8) -> Scan<[u16; 8]>
    ensures verdict { (k m : ℕ) → told k m result ≡ run k (step end) (least_address m) s.now start }
    ensures claim { (k : ℕ) → Ending end → Claim (Ended Address end) (λ u. k) (told k 0 result) s.now }
    ensures inside { Inside (length s.now) 4 result }
{
    let mut groups = [0u16; 8];
    match begun(s, end, &mut groups) {
        Scan::Accepted(_, n) => Scan::Accepted(groups, n),
        Scan::More(least) => Scan::More(least),
        Scan::Refused(place) => Scan::Refused(place),
    }
}
