// The writer of a version 2 header whose last TLV is a checksum. No public function has a `requires`.
#![tactic(auto)]

ghost use Rattle.std.specs.Prelude.{◌≡◌, length};
ghost use Rattle.answer.specs.Answers.{told_written, output_after};
ghost use Rattle.checked_writer.specs.Written.{request_test, written_checked, checked_answer, header_text, header_answer};
ghost use Rattle.checked_writer.specs.Demand.{Means, ReadsBack};

use answer::Fault;
use block_writer::{in_order, put_block, write_block};
use clean::clean;
use crc::crc32c;
use lent::{front, put};
use network32::network_bytes;
use record::{Kind, Record, block_length};
use tlv_count::has_none;
use tlv_writer::put_tlv;

// Whether a checksum may be added to the area beside the kind.
fn request_fits(kind: Kind, area: &[u8]) -> bool
    ensures { result ≡ request_test kind area.now }
{
    match kind {
        Kind::Local | Kind::Unspecified => false,
        Kind::Ip4(_) | Kind::Ip6(_) | Kind::Unix(_) => has_none(area, 0x03),
    }
}

// What is answered for an area and an output of this size: the record is to be clean, and a checksum TLV of seven bytes to fit beside the area. (The
// record by value: of one behind a reference only the parts that a body reads are known, and `in_memory` takes all.)
fn check(from: Record, area: &[u8], room: usize) -> Result<usize, Fault>
    ensures { told_written result ≡ checked_answer from area.now room }
{
    let good = clean(&from);
    // The area may be long: it is looked at for a record that is good.
    let fits = good && request_fits(from.kind, area);
    in_order(good, fits, block_length(from.kind) + 7, area.len(), room)
}

// Writes the record with the TLV area and a checksum TLV behind its address block: how many bytes, or why the output stays as it was.
pub fn write_checked(from: Record, area: &[u8], out: &mut [u8]) -> Result<usize, Fault>
    ensures { (told_written result ≡ checked_answer from area.now (length out.old))
        × (out.new ≡ output_after (checked_answer from area.now (length out.old))
        (written_checked from area.now) out.old)
        × Means from area.now (length out.old) (told_written result)
        × ReadsBack from area.now (told_written result) out.new }
{
    let n = check(from, area, out.len())?;
    put_block(&from, (n - 16) as u16, area, out);
    put_tlv(0x03, &[0; 4], out, n - 7);
    let sum = network_bytes(crc32c(front(out, n)));
    put(&sum, out, n - 4);
    Ok(n)
}

// Writes a version 2 header, with a checksum on request.
pub fn write_header(
    from: Record,
    area: &[u8],
    request: bool,
    out: &mut [u8],
) -> Result<usize, Fault>
    ensures { (told_written result ≡ header_answer request from area.now (length out.old))
        × (out.new ≡ output_after (header_answer request from area.now (length out.old))
        (header_text request from area.now) out.old) }
{
    if request {
        write_checked(from, area, out)
    } else {
        write_block(from, area, out)
    }
}
