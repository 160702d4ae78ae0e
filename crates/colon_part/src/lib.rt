// The colon part of IPv6 text: what may stand behind a group, or at the start of an address.
// No public function has a `requires`.
#![tactic(auto)]

ghost use Rattle.std.specs.Prelude.{◌≡◌, ◌<◌};
ghost use Rattle.colon_part.specs.Part.{least_counted, behind_double, behind_colon, part_at};

// What a colon part leads to. count counts the groups so far; "::" counts as one of them, and gap counts those up to and with it; gap is 0 while
// it has not come.
#[derive(Clone, Copy)]
pub enum Part {
    // The bytes end before it is known, and so few could finish the address.
    More(usize),
    // The byte at this place rules the address out.
    Refused(usize),
    // The byte that ends an address stands at this place.
    End { at: usize, count: usize, gap: usize },
    // A group must begin at this place.
    Group { at: usize, count: usize, gap: usize },
}

// How few bytes could finish an address behind a group, where at most eight have come: its end, or "::" and its end.
pub fn least_behind(count: usize, gap: usize) -> usize
    ensures { result ≡ least_counted count gap }
{
    if gap == 0 && count != 8 { 3 } else { 1 }
}

// Behind "::".
fn behind_double(s: &[u8], at: usize, end: u8, count: usize) -> Part
    requires { count < 8 }
    ensures { result ≡ behind_double end s.now at count }
{
    let Some(&c) = s.get(at) else {
        return Part::More(1);
    };
    let counted = count + 1;
    if c == end {
        return Part::End {
            at,
            count: counted,
            gap: counted,
        };
    }
    if count < 7 {
        Part::Group {
            at,
            count: counted,
            gap: counted,
        }
    } else {
        Part::Refused(at)
    }
}

// Behind a colon.
fn behind_colon(s: &[u8], at: usize, end: u8, count: usize, gap: usize) -> Part
    requires { count < 8 }
    ensures { result ≡ behind_colon end s.now at count gap }
{
    let Some(&c) = s.get(at) else {
        return Part::More(2);
    };
    match c {
        b':' if gap == 0 => behind_double(s, at + 1, end, count),
        b':' => Part::Refused(at),
        _ if count == 0 => Part::Refused(at),
        _ => Part::Group { at, count, gap },
    }
}

// The colon part at a place of an address that the byte end ends.
pub fn colon_part(s: &[u8], at: usize, end: u8, count: usize, gap: usize) -> Part
    ensures { result ≡ part_at end s.now at count gap }
{
    let Some(&c) = s.get(at) else {
        return Part::More(least_behind(count, gap));
    };
    match c {
        b':' if count < 8 => behind_colon(s, at + 1, end, count, gap),
        b':' => Part::Refused(at),
        _ if c == end => Part::End { at, count, gap },
        _ => Part::Refused(at),
    }
}
