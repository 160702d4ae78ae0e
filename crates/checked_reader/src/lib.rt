// Checked reading: the plain reader's answer, and what the checksum TLV of a header says of it. No public function has a `requires`.
#![tactic(auto)]

ghost use Rattle.std.specs.Prelude.{◌≡◌, take, drop};
ghost use Rattle.lent.specs.Same.{same};
ghost use Rattle.tlv.specs.Listed.{tlvs_of};
ghost use Rattle.crc.specs.Crc.{checksum as checksum_of_bytes, stored, cleared};
ghost use Rattle.checksum.specs.Checked.{Checks};
ghost use Rattle.checksum.specs.State.{state_in, state_from, checked_verdict};
ghost use Rattle.checked_reader.specs.CheckedReading.{told_checked};
ghost use Rattle.checked_reader.specs.First.{FirstAt};

use answer::{Header, Stop};
use area::span_of;
use crc::crc32c_cleared;
use lent::{behind, front};
use lookup::{Answer, Examined, lookup};
use reader::read;
use record::{Checksum, with_checksum};
use tlv_count::has_none;
use tlv_step::IllFormed;

// Why a checked reading gives no header.
#[derive(Clone, Copy)]
pub enum CheckedStop {
    // As the plain reader answers.
    Stop(Stop),
    // The number 23.
    WrongChecksum,
}

impl From<Stop> for CheckedStop {
    ghost use Rattle.checked_reader.specs.declared.CheckedStop.TheVariants.{Stop};

    ghost from_gives = { λ stop e. e ≡ Stop stop };

    fn from(stop: Stop) -> CheckedStop {
        CheckedStop::Stop(stop)
    }
}

// Whether the four bytes at this place of a header are its checksum.
fn is_right(header: &[u8], at: usize) -> bool
    ensures { result ≡ same (take 4 (drop at header.now)) (stored (checksum_of_bytes (cleared at header.now))) }
{
    let sum = crc32c_cleared(header, at).to_be_bytes();
    front(behind(header, at), 4) == sum.as_slice()
}

// What the first 0x03 TLV of the area says, whose value of this size starts here: the state of the header's record, or none where the checksum is wrong.
fn check_value(header: &[u8], area: &[u8], start: usize, size: usize) -> Option<Checksum>
    requires { FirstAt header.now area.now start size }
    ensures { result ≡ state_in header.now (tlvs_of area.now) }
{
    let odd = size != 4;
    if odd {
        return None;
    }
    if !has_none(behind(area, start + size), 0x03) {
        return None;
    }
    if is_right(header, header.len() - area.len() + start) {
        Some(Checksum::Matched)
    } else {
        None
    }
}

// What the checksum of a header says, whose TLV area starts at this place: the state of its record, or none where the checksum is wrong; absent where
// TLVs do not fill what is there.
pub fn check_header(header: &[u8], start: usize) -> Option<Checksum>
    ensures { result ≡ state_from header.now start }
{
    let area = behind(header, start);
    match lookup(area, 0x03, area.len()) {
        Ok(Examined { answer, .. }) => match answer {
            Answer::Found(value) => check_value(header, area, value.start, value.size),
            Answer::Absent => Some(Checksum::Absent),
            Answer::GaveUp => Some(Checksum::Absent),
        },
        Err(IllFormed) => Some(Checksum::Absent),
    }
}

// A checked reading of the bytes so far: the whole header that they begin with, its record with the state that its checksum says, or why there is none.
pub fn read_checked(s: &[u8]) -> Result<Header, CheckedStop>
    ensures told { told_checked s.now result ≡ checked_verdict s.now }
    ensures claim { Checks s.now (told_checked s.now result) }
{
    let header = read(s)?;
    let area = span_of(header.length, header.version, header.record.kind, s.len());
    match check_header(front(s, area.end), area.start) {
        Some(checksum) => Ok(Header {
            record: with_checksum(header.record, checksum),
            ..header
        }),
        None => Err(CheckedStop::WrongChecksum),
    }
}
