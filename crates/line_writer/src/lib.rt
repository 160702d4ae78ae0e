// The writer of a version 1 header, a text line. No public function has a `requires`.
#![tactic(auto)]

ghost use Rattle.std.specs.Prelude.{◌≡◌, length};
ghost use Rattle.answer.specs.Answers.{told_written, output_after};
ghost use Rattle.line_text.specs.LineText.{written_line};
ghost use Rattle.line_writer.specs.Written.{has_form, line_answer};
ghost use Rattle.line_writer.specs.Demand.{Means, ReadsBack};

use answer::Fault;
use clean::plain;
use draft::Draft;
use lent::put;
use line_text::push_line;
use record::{Kind, Record, Transport};

// Whether version 1 has a form for the kind.
fn has_form(kind: Kind) -> bool
    ensures { result ≡ has_form kind }
{
    match kind {
        Kind::Unspecified | Kind::Ip4(Transport::Stream) | Kind::Ip6(Transport::Stream) => true,
        Kind::Local
        | Kind::Ip4(Transport::Datagram)
        | Kind::Ip6(Transport::Datagram)
        | Kind::Unix(_) => false,
    }
}

// What is answered for a line of n bytes and an output of this size: a kind without a form (10), unused bytes or ports that are not zero (11), an output
// that is too short (14), or the length. (The record by value: of one behind a reference only the parts that a body reads are known, and `in_memory`
// takes all.)
fn check(from: Record, n: usize, room: usize) -> Result<usize, Fault>
    requires { n ≡ length (written_line from) }
    ensures { told_written result ≡ line_answer from room }
{
    if !has_form(from.kind) {
        return Err(Fault::Form);
    }
    if !plain(&from) {
        return Err(Fault::Unused);
    }
    if room < n {
        return Err(Fault::Room);
    }
    Ok(n)
}

// Writes the record's line at the front of the output, and answers its length. Or refuses, in this order, a kind without a form (10), unused bytes or
// ports that are not zero (11) and an output that is too short (14), and leaves the output as it was.
pub fn write_line(from: Record, out: &mut [u8]) -> Result<usize, Fault>
    ensures { (told_written result ≡ line_answer from (length out.old))
        × (out.new ≡ output_after (line_answer from (length out.old)) (written_line from) out.old)
        × Means from (length out.old) (told_written result)
        × ReadsBack from (told_written result) out.new }
{
    let mut text = [0u8; 104];
    let mut draft = Draft::over(&mut text);
    push_line(&mut draft, &from);
    let n = draft.length;
    check(from, n, out.len())?;
    put(&draft.bytes[..n], out, 0);
    Ok(n)
}
