// The programs' input and their answer line, over any stream. No public function has a `requires`.
#![tactic(auto)]

ghost use Rattle.std.specs.Prelude.{◌≡◌, ◌≤◌, ℕ, length, take, IfOk, OnOk, OnErr, IfSome};
ghost use Rattle.std.specs.Io.{ReadsAtMost};
ghost use Rattle.std.specs.Io.KnownBytes.{Appends, Consumes};
ghost use Rattle.record.specs.Kinds.{kind_word};
ghost use Rattle.draft.specs.Drafts.{Adds};
ghost use Rattle.report.specs.Line.{line_of, stop_line, answer_line};

use answer::{Header, Stop};
use draft::{Base, Draft};
use record::{Kind, Transport};
use std::io;
use std::io::{Read, Write};

// The word of a kind.
fn kind_word(kind: Kind) -> &'static [u8]
    ensures { result.now ≡ kind_word kind }
{
    match kind {
        Kind::Local => b"local",
        Kind::Unspecified => b"unspecified",
        Kind::Ip4(Transport::Stream) => b"ip4-stream",
        Kind::Ip4(Transport::Datagram) => b"ip4-datagram",
        Kind::Ip6(Transport::Stream) => b"ip6-stream",
        Kind::Ip6(Transport::Datagram) => b"ip6-datagram",
        Kind::Unix(Transport::Stream) => b"unix-stream",
        Kind::Unix(Transport::Datagram) => b"unix-datagram",
    }
}

// `accepted 47 ip4-stream`, and LF: 9 + 20 + 1 + 13 + 1 = 44 bytes at most.
fn push_accepted(draft: &mut Draft, n: usize, kind: Kind)
    ensures line { Adds draft.old draft.new (line_of n kind) }
    ensures fits { length (line_of n kind) ≤ 44 }
{
    draft.push_word(b"accepted ");
    draft.push_number(Base::Decimal, n as u64);
    draft.push(b' ');
    draft.push_word(kind_word(kind));
    draft.push(b'\n');
}

// `more` or `refused 3 at 13`, and LF.
fn push_stop(draft: &mut Draft, stop: Stop)
    ensures line { Adds draft.old draft.new (stop_line stop) }
    ensures fits { length (stop_line stop) ≤ 44 }
{
    match stop {
        Stop::More { least: _ } => draft.push_word(b"more\n"),
        Stop::Refused { refusal, place } => {
            draft.push_word(b"refused ");
            draft.push_number(Base::Decimal, u64::from(u8::from(refusal)));
            draft.push_word(b" at ");
            draft.push_number(Base::Decimal, place as u64);
            draft.push(b'\n');
        }
    }
}

// Puts the line of an answer behind what the draft has: 44 bytes are room enough. (No Display: std says what is written only of a call that
// succeeds, and this one cannot fail.)
pub fn push_answer(draft: &mut Draft, answer: &Result<Header, Stop>)
    ensures line { Adds draft.old draft.new (answer_line answer.now) }
    ensures fits { length (answer_line answer.now) ≤ 44 }
{
    match answer {
        Ok(header) => push_accepted(draft, header.length, header.record.kind),
        Err(stop) => push_stop(draft, *stop),
    }
}

// Fills the buffer from the front, until it is full or the stream ends, and answers how many bytes it put. However the stream cuts its
// bytes, those are its first ones. An error is the stream's own, of the first read that fails; what was read by then is in front.
// (A loop: std's `read_exact` says nothing of what an error leaves, nor of how far it came where the stream ends early.)
pub fn read_full<R: Read>(reader: &mut R, buffer: &mut [u8]) -> io::Result<usize>
    ensures bound { ReadsAtMost result buffer.new }
    ensures room { length buffer.new ≡ length buffer.old }
    ensures first { IfOk result (λ n. IfSome (R.remaining reader.old)
        (λ xs. take n buffer.new ≡ take (length buffer.old) xs)) }
    ensures rest { IfOk result (λ n. Consumes (R.remaining reader.old) (R.remaining reader.new) (take n buffer.new)) }
    ensures failed { OnErr result ((n : ℕ) × Consumes (R.remaining reader.old) (R.remaining reader.new) (take n buffer.new)) }
{
    let mut at = 0;
    while at < buffer.len() {
        let n = reader.read(&mut buffer[at..])?;
        if n == 0 {
            break;
        }
        at += n;
    }
    Ok(at)
}

// Writes the bytes to a stream. An error is the stream's own, of the first write that fails, or `WriteZero` where one takes no byte; some first
// bytes are written then. (A loop: std's `write_all` says nothing of what an error leaves.)
fn write_whole<W: Write>(writer: &mut W, bytes: &[u8]) -> io::Result<()>
    ensures written { OnOk result (Appends (W.contents writer.old) (W.contents writer.new) bytes.now) }
    ensures failed { OnErr result ((n : ℕ) × Appends (W.contents writer.old) (W.contents writer.new) (take n bytes.now)) }
{
    let mut at = 0;
    while at < bytes.len() {
        let n = writer.write(&bytes[at..])?;
        if n == 0 {
            return Err(io::Error::from(io::ErrorKind::WriteZero));
        }
        at += n;
    }
    Ok(())
}

// Writes the line of an answer to a stream: offered whole, and again from where the stream stopped. An error is that of a write that fails or takes no
// byte; some first bytes of the line are written then.
pub fn print_answer<W: Write>(writer: &mut W, answer: &Result<Header, Stop>) -> io::Result<()>
    ensures written { OnOk result (Appends (W.contents writer.old) (W.contents writer.new) (answer_line answer.now)) }
    ensures failed { OnErr result ((n : ℕ) × Appends (W.contents writer.old) (W.contents writer.new) (take n (answer_line answer.now))) }
{
    let mut text = [0u8; 44];
    let mut draft = Draft::over(&mut text);
    push_answer(&mut draft, answer);
    let n = draft.length;
    write_whole(writer, &draft.bytes[..n])
}

#[cfg(test)]
mod tests;
