// An address as version 1 text: IPv4 as four decimals, IPv6 by RFC 5952, section 4. No public function has a `requires`.
#![tactic(auto)]

ghost use Rattle.std.specs.Prelude.{◌≡◌, take};
ghost use Rattle.draft.specs.Drafts.{Adds};
ghost use Rattle.address_text.specs.Addresses.{groups_text, groups_of, is_replaced, address_text};

use draft::{Base, Draft};
use zero_run::{Run, longest_run};

// The address families that a text line has. (line_address has its own Inet: one for both would lie below both, with the methods of neither.)
#[derive(Clone, Copy)]
pub enum Inet {
    V4,
    V6,
}

// Whether "::" takes the place of a run of zero groups: of a single group it never does.
fn is_replaced(run: Run) -> bool
    ensures { result ≡ is_replaced run }
{
    2 <= run.count
}

// IPv6 text: eight groups with colons, "::" in place of the longest run of two or more zeros, the first of equals. (Groups by value: a rule of the
// project, docs/DECISIONS.md.)
fn push_groups(draft: &mut Draft, groups: [u16; 8])
    ensures { Adds draft.old draft.new (groups_text groups) }
{
    match longest_run(groups) {
        Some(run) if is_replaced(run) => {
            draft.push_numbers(Base::Hex, b':', &groups[..run.before]);
            draft.push_word(b"::");
            draft.push_numbers(Base::Hex, b':', &groups[run.before + run.count..]);
        }
        _ => draft.push_numbers(Base::Hex, b':', &groups),
    }
}

// The octets of the IPv4 address that a record holds.
fn octets_of(held: &[u8; 108]) -> [u16; 4]
    ensures { result ≡ take 4 held.now }
{
    [
        held[0] as u16,
        held[1] as u16,
        held[2] as u16,
        held[3] as u16,
    ]
}

// The groups of the IPv6 address that a record holds.
fn groups_of(held: &[u8; 108]) -> [u16; 8]
    ensures { result ≡ groups_of (take 16 held.now) }
{
    let mut groups = [0; 8];
    for (i, group) in groups.iter_mut().enumerate() {
        *group = u16::from_be_bytes([held[2 * i], held[2 * i + 1]]);
    }
    groups
}

// The address of a family that a record holds.
pub fn push_address(draft: &mut Draft, inet: Inet, held: &[u8; 108])
    ensures { Adds draft.old draft.new (address_text inet held.now) }
{
    match inet {
        Inet::V4 => draft.push_numbers(Base::Decimal, b'.', &octets_of(held)),
        Inet::V6 => push_groups(draft, groups_of(held)),
    }
}
