// The writer of a version 2 header, a binary block. No public function has a `requires`.
#![tactic(auto)]

ghost use Rattle.std.specs.Prelude.{◌≡◌, ◌+◌, length};
ghost use Rattle.answer.specs.Answers.{told_written, output_after};
ghost use Rattle.block_writer.specs.Areas.{area_test};
ghost use Rattle.block_writer.specs.Written.{block_placed, written_block, in_order, block_answer};
ghost use Rattle.block_writer.specs.Demand.{Means, ReadsBack};

use address_block_writer::put_addresses;
use answer::Fault;
use clean::plain;
use head_writer::put_head;
use lent::put;
use record::{Kind, Record, block_length};
use tlv::well_formed;

// Whether the area may stand beside the kind: TLVs fill it, and it is empty beside local and unspecified.
fn area_fits(kind: Kind, area: &[u8]) -> bool
    ensures { result ≡ area_test kind area.now }
{
    match kind {
        Kind::Local | Kind::Unspecified => area.len() == 0,
        Kind::Ip4(_) | Kind::Ip6(_) | Kind::Unix(_) => well_formed(area),
    }
}

// What is answered by a test of the record and one of the area, for a block of two parts of these sizes and an output of this size: a record that is
// not good (11), an area that may not stand there (12), a block that is too long (13), an output that is too short (14), or the header's length.
pub fn in_order(
    good: bool,
    fits: bool,
    first: usize,
    second: usize,
    room: usize,
) -> Result<usize, Fault>
    ensures { told_written result ≡ in_order good fits (first + second) (16 + (first + second)) room }
{
    if !good {
        return Err(Fault::Unused);
    }
    if !fits {
        return Err(Fault::Area);
    }
    if 65535 < first {
        return Err(Fault::Size);
    }
    if 65535 - first < second {
        return Err(Fault::Size);
    }
    let n = first + second;
    if room < 16 + n {
        return Err(Fault::Room);
    }
    Ok(16 + n)
}

// What is answered for an area and an output of this size: the record is to be plain, and the area to fit its kind. (The record by value: of one behind
// a reference only the parts that a body reads are known, and `in_memory` takes all.)
fn check(from: Record, area: &[u8], room: usize) -> Result<usize, Fault>
    ensures { told_written result ≡ block_answer from area.now room }
{
    let good = plain(&from);
    // The area may be long: it is looked at for a record that is good.
    let fits = good && area_fits(from.kind, area);
    in_order(good, fits, block_length(from.kind), area.len(), room)
}

// Puts a header's first sixteen bytes, with this size of the block, its address block, and the area behind it at the front of the output; each part
// only where it fits.
pub fn put_block(from: &Record, size: u16, area: &[u8], out: &mut [u8])
    ensures { out.new ≡ block_placed from.now size area.now out.old }
{
    put_head(from.kind, size, out);
    put_addresses(from, out, 16);
    put(area, out, 16 + block_length(from.kind));
}

// Writes the record with the TLV area behind its address block: how many bytes, or why the output stays as it was.
pub fn write_block(from: Record, area: &[u8], out: &mut [u8]) -> Result<usize, Fault>
    ensures { (told_written result ≡ block_answer from area.now (length out.old))
        × (out.new ≡ output_after (block_answer from area.now (length out.old))
        (written_block from area.now) out.old)
        × Means from area.now (length out.old) (told_written result)
        × ReadsBack from area.now (told_written result) out.new }
{
    let n = check(from, area, out.len())?;
    put_block(&from, (n - 16) as u16, area, out);
    Ok(n)
}
