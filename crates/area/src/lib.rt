// The TLV area of a reading: where it lies in the bytes read, and the part itself. No public function has a `requires`.
#![tactic(auto)]

ghost use Rattle.std.specs.Prelude.{◌≡◌, ◌+◌, length};
ghost use Rattle.area.specs.Area.{span_start, span_end, header_area, area_start, read_area};

use answer::{Header, Stop};
use record::{Kind, block_length};

// Where a part of the bytes read begins and ends.
#[derive(Clone, Copy)]
pub struct Span {
    pub start: usize,
    pub end: usize,
}

// Where the TLV area of a header of this length, version and kind lies in the bytes read, of which there are size; at 0 and empty where
// there is none.
#[tactic(auto, using(fields::specs::BlockFields::block_small))]
pub fn span_of(length: usize, version: u8, kind: Kind, size: usize) -> Span
    ensures start { result.start ≡ span_start length version kind size }
    ensures end { result.end ≡ span_end length version kind size }
{
    let block = block_length(kind);
    if version != 2 || block == 0 {
        return Span { start: 0, end: 0 };
    }
    let end = length.min(size);
    Span {
        start: end.min(16 + block),
        end,
    }
}

// The TLV area of a header of s, as the very part of s; empty where there is none.
pub fn header_area<'a>(s: &'a [u8], header: &Header) -> &'a [u8]
    ensures { (result.ref_ptr.0 ≡ s.entry.ref_ptr.0)
        × (result.ref_ptr.1 ≡ s.entry.ref_ptr.1 + span_start header.now.length header.now.version header.now.«record».kind (length s.now))
        × (result.now ≡ header_area header.now s.now) }
{
    let span = span_of(header.length, header.version, header.record.kind, s.len());
    &s[span.start..span.end]
}

// The TLV area of a reading of s, as the very part of s; empty where there is none, as in bytes that do not begin with a whole header.
pub fn tlv_area<'a>(s: &'a [u8], reading: &Result<Header, Stop>) -> &'a [u8]
    ensures { (result.ref_ptr.0 ≡ s.entry.ref_ptr.0)
        × (result.ref_ptr.1 ≡ s.entry.ref_ptr.1 + area_start reading.now (length s.now))
        × (result.now ≡ read_area reading.now s.now) }
{
    match reading {
        Ok(header) => header_area(s, header),
        Err(_) => &s[..0],
    }
}
