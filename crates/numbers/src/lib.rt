// What C callers are told in numbers: an answer, and four numbers. No public function has a `requires`.
#![tactic(auto)]

ghost use Rattle.std.specs.Prelude.{◌≡◌, [], ◌∷◌, length};
ghost use Rattle.lent.specs.Buffers.{told_in};
ghost use Rattle.answer.specs.Answers.{told_written};
ghost use Rattle.stored_form.specs.Loading.{told_loaded};
ghost use Rattle.stored_form.specs.Converting.{told_converted};
ghost use Rattle.lookup.specs.Lookup.{told_finding};
ghost use Rattle.numbers.specs.Numbers.{numbers_size, tells_one, four_of, header_told, stop_told, room_beside, written_number, numbers_after, load_number, lookup_number};

use answer::{Fault, Stop};
use area::span_of;
use lookup::{Answer, Examined};
use record::{Kind, Record};
use stored_form::{ConvertError, Flaw};
use tlv_step::IllFormed;

pub const NUMBERS: usize = 4;

// What is told by numbers: the answer, and four numbers, of which the last two are a start and a length in the lent bytes.
#[derive(Clone, Copy)]
pub struct Told {
    pub answer: u32,
    pub first: u64,
    pub second: u64,
    pub start: u64,
    pub length: u64,
}

impl Told {
    // An answer that tells one number.
    pub fn one(answer: u32, first: u64) -> Told
        ensures { result ≡ tells_one answer first }
    {
        Told {
            answer,
            first,
            second: 0,
            start: 0,
            length: 0,
        }
    }

    // What a header of this length, version and kind tells, of which size bytes are there.
    pub fn header(length: usize, version: u8, kind: Kind, size: usize) -> Told
        ensures { result ≡ header_told length version kind size }
    {
        let span = span_of(length, version, kind, size);
        let area = span.end - span.start;
        Told {
            answer: 0,
            first: length as u64,
            second: version as u64,
            start: (length - area) as u64,
            length: area as u64,
        }
    }

    // What bytes tell that are no whole header.
    pub fn stop(stop: Stop) -> Told
        ensures { result ≡ stop_told stop }
    {
        match stop {
            Stop::More { least } => Told::one(255, least as u64),
            Stop::Refused { refusal, place } => {
                Told::one(u32::from(u8::from(refusal)), place as u64)
            }
        }
    }

    // Puts the four numbers at the front of the output, where it has room for them; else it stays as it is.
    pub fn put(self, out: &mut [u64])
        ensures { out.new ≡ told_in numbers_size (four_of self) out.old }
    {
        put_numbers(out, self.first, self.second, self.start, self.length);
    }
}

// Puts four numbers at the front of the output, where it has room for them; else it stays as it is. It stays beside `put_all`: docs/TRACE.md names it.
pub fn put_numbers(out: &mut [u64], first: u64, second: u64, start: u64, size: u64)
    ensures { out.new ≡ told_in numbers_size (first ∷ second ∷ start ∷ size ∷ []) out.old }
{
    put_all(&[first, second, start, size], out);
}

// Puts numbers at the front of the output, where it has room for all of them; else it stays as it is.
pub fn put_all(told: &[u64], out: &mut [u64])
    ensures { out.new ≡ told_in (length told.now) told.now out.old }
{
    if told.len() <= out.len() {
        out[..told.len()].copy_from_slice(told);
    }
}

// The room of an output beside so many numbers: none, where they are too few.
pub fn room_beside(numbers: usize, output: usize) -> usize
    ensures { result ≡ room_beside numbers output }
{
    if numbers < NUMBERS { 0 } else { output }
}

// Tells what a writer has written, the length where the numbers have room.
pub fn tell_written(written: Result<usize, Fault>, numbers: &mut [u64]) -> u32
    ensures { (result ≡ written_number (told_written written)) × (numbers.new ≡ numbers_after (told_written written) numbers.old) }
{
    match written {
        Ok(n) => {
            put_numbers(numbers, n as u64, 0, 0, 0);
            0
        }
        Err(fault) => u32::from(u8::from(fault)),
    }
}

// Tells what a conversion has written, as a writer's answer is told.
pub fn tell_converted(converted: Result<usize, ConvertError>, numbers: &mut [u64]) -> u32
    ensures { (result ≡ written_number (told_converted converted)) × (numbers.new ≡ numbers_after (told_converted converted) numbers.old) }
{
    match converted {
        Ok(n) => tell_written(Ok(n), numbers),
        Err(ConvertError::Refused(fault)) => tell_written(Err(fault), numbers),
        Err(ConvertError::Invalid(flaw)) => u32::from(u8::from(flaw)),
    }
}

// The number of what stored bytes are. A function and no From, likewise.
pub fn outcome_number(loaded: &Result<Record, Flaw>) -> u32
    ensures { result ≡ load_number (told_loaded loaded.now) }
{
    match loaded {
        Ok(_) => 0,
        Err(flaw) => u32::from(u8::from(*flaw)),
    }
}

// The number of a lookup's answer. A function and no From: the answer and the number are types of other crates.
pub fn lookup_number(looked_up: Result<Examined, IllFormed>) -> u32
    ensures { result ≡ lookup_number (told_finding looked_up) }
{
    match looked_up {
        Ok(Examined { answer, .. }) => match answer {
            Answer::Found(_) => 0,
            Answer::Absent => 253,
            Answer::GaveUp => 254,
        },
        Err(IllFormed) => 12,
    }
}
