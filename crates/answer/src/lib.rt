// What readers and writers answer, and the numbers of that. No public function has a `requires`.
#![tactic(auto)]

ghost use Rattle.std.specs.Prelude.{◌≡◌};
ghost use Rattle.answer.specs.Answers.{number_of, fault_number};
ghost use Rattle.answer.specs.Sight.{kind_only};
ghost use Rattle.answer.specs.Places.{placed};

use exact::Scan;
use record::{Kind, Record};

// The field that holds the first byte which rules a header out: numbers 1 to 9.
#[derive(Clone, Copy)]
pub enum Refusal {
    Start,
    Word,
    Address,
    Port,
    End,
    Command,
    Family,
    Length,
    Tlv,
}

// Why a writer left the output as it was: numbers 10 to 14, 20 and 24.
#[derive(Clone, Copy)]
pub enum Fault {
    Form,
    Unused,
    Area,
    Size,
    Room,
    Version,
    State,
}

// Who is calling, as a text line says it: the addresses stand at the front of their arrays, with zeros behind them.
#[derive(Clone, Copy)]
pub struct Caller {
    pub kind: Kind,
    pub source: [u8; 16],
    pub destination: [u8; 16],
    pub source_port: u16,
    pub destination_port: u16,
}

// Why the bytes so far are no whole header.
#[derive(Clone, Copy)]
pub enum Stop {
    // Some continuation is one, and so few further bytes could make it whole.
    More { least: usize },
    // None is, and the byte at this place is the first that rules it out.
    Refused { refusal: Refusal, place: usize },
}

// What a part of the bytes says, and the place behind it.
#[derive(Clone, Copy)]
pub struct Found<T> {
    pub value: T,
    pub end: usize,
}

// A whole header before a record is made of it. A line is seen by its caller; a block by its kind, since its addresses stand in the bytes
// themselves, from 16 on.
#[derive(Clone, Copy)]
pub enum Sight {
    Line(Found<Caller>),
    Block(Found<Kind>),
}

// A whole header at the front of the bytes: its length, its version, 1 or 2, and its record.
#[derive(Clone, Copy)]
pub struct Header {
    pub length: usize,
    pub version: u8,
    pub record: Record,
}

// What a scan of the bytes from `at` on makes of the header: where the field is whole, its value and the place behind it; else the header's own answer,
// by the field's refusal and how few bytes must follow the field.
pub fn place<T: Copy>(
    scan: Scan<T>,
    at: usize,
    refusal: Refusal,
    behind: usize,
) -> Result<Found<T>, Stop>
    ensures { result ≡ placed scan at refusal behind }
{
    match scan {
        Scan::Accepted(value, n) => Ok(Found {
            value,
            end: at.saturating_add(n),
        }),
        Scan::More(least) => Err(Stop::More {
            least: least.saturating_add(behind),
        }),
        Scan::Refused(place) => Err(Stop::Refused {
            refusal,
            place: at.saturating_add(place),
        }),
    }
}

// A caller of whom only the kind is known.
pub fn of_kind(kind: Kind) -> Caller
    ensures { result ≡ kind_only kind }
{
    Caller {
        kind,
        source: [0; 16],
        destination: [0; 16],
        source_port: 0,
        destination_port: 0,
    }
}

// The number of a refusal.
impl From<Refusal> for u8 {
    ghost from_gives = { λ refusal n. n ≡ number_of refusal };

    fn from(refusal: Refusal) -> u8 {
        match refusal {
            Refusal::Start => 1,
            Refusal::Word => 2,
            Refusal::Address => 3,
            Refusal::Port => 4,
            Refusal::End => 5,
            Refusal::Command => 6,
            Refusal::Family => 7,
            Refusal::Length => 8,
            Refusal::Tlv => 9,
        }
    }
}

// The number of a fault.
impl From<Fault> for u8 {
    ghost from_gives = { λ fault n. n ≡ fault_number fault };

    fn from(fault: Fault) -> u8 {
        match fault {
            Fault::Form => 10,
            Fault::Unused => 11,
            Fault::Area => 12,
            Fault::Size => 13,
            Fault::Room => 14,
            Fault::Version => 20,
            Fault::State => 24,
        }
    }
}
