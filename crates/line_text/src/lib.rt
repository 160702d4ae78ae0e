// The version 1 line of a record, as text. No public function has a `requires`.
#![tactic(auto)]

ghost use Rattle.std.specs.Prelude.{◌≡◌, ◌++◌};
ghost use Rattle.exact.specs.Ascii.{ascii};
ghost use Rattle.draft.specs.Drafts.{Adds};
ghost use Rattle.address_text.specs.Addresses.{address_text};
ghost use Rattle.line_text.specs.LineText.{family_word, tcp_text, written_line};

use address_text::{Inet, push_address};
use draft::{Base, Draft};
use record::{Kind, Record, Transport};

// What stands before the source address.
fn opening(inet: Inet) -> &'static [u8]
    ensures { result.now ≡ ascii "PROXY " ++ family_word inet ++ ascii " " }
{
    match inet {
        Inet::V4 => b"PROXY TCP4 ",
        Inet::V6 => b"PROXY TCP6 ",
    }
}

// A TCP line: 6 + 4 + 1 + 39 + 1 + 39 + 1 + 5 + 1 + 5 + 2 = 104 bytes at most.
fn push_tcp_line(draft: &mut Draft, inet: Inet, from: &Record)
    ensures { Adds draft.old draft.new (tcp_text (family_word inet) (address_text inet) from.now) }
{
    draft.push_word(opening(inet));
    push_address(draft, inet, &from.source);
    draft.push(b' ');
    push_address(draft, inet, &from.destination);
    draft.push(b' ');
    draft.push_number(Base::Decimal, u64::from(from.source_port));
    draft.push(b' ');
    draft.push_number(Base::Decimal, u64::from(from.destination_port));
    draft.push_word(b"\r\n");
}

// The line of a record; nothing for a kind without a form. (No Display: std says what is written only of a call that succeeds, and this one cannot fail.)
#[tactic(auto, using(draft::proofs::DraftLaws::adds_none), unfolding(crate::specs::LineText::written_line))]
pub fn push_line(draft: &mut Draft, from: &Record)
    ensures { Adds draft.old draft.new (written_line from.now) }
{
    match from.kind {
        Kind::Unspecified => draft.push_word(b"PROXY UNKNOWN\r\n"),
        Kind::Ip4(Transport::Stream) => push_tcp_line(draft, Inet::V4, from),
        Kind::Ip6(Transport::Stream) => push_tcp_line(draft, Inet::V6, from),
        Kind::Local
        | Kind::Ip4(Transport::Datagram)
        | Kind::Ip6(Transport::Datagram)
        | Kind::Unix(_) => {}
    }
}
