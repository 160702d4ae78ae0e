// The writer of the stored form, versions 1 and 2. No public function has a `requires`.
#![tactic(auto)]

ghost use Rattle.std.specs.Prelude.{◌≡◌, length};
ghost use Rattle.answer.specs.Answers.{told_written, output_after};
ghost use Rattle.stored_form.specs.Stored.{stored, store_answer};
ghost use Rattle.stored_form.specs.Meaning.{Means, LoadsBack};

use address_block_writer::put_addresses;
use answer::Fault;
use clean::clean;
use kind_code::{code_of, state_byte};
use lent::put;
use record::{Record, block_length};
use stored_form::{StoredVersion, head_length, keeps, version_byte};

// What is answered for an output of this size: a record that is not clean (11), a state that the version cannot say (24), an output that is too short (14),
// or the length. (The record by value: of one behind a reference only the parts that a body reads are known, and `in_memory` takes all. Not inlined:
// the copy that it lends to `clean` would lie on the caller's stack.)
#[inline(never)]
fn check(from: Record, version: StoredVersion, room: usize) -> Result<usize, Fault>
    ensures { told_written result ≡ store_answer version from room }
{
    if !clean(&from) {
        return Err(Fault::Unused);
    }
    if !keeps(version, from.checksum) {
        return Err(Fault::State);
    }
    let n = head_length(version) + block_length(from.kind);
    if room < n {
        return Err(Fault::Room);
    }
    Ok(n)
}

// Writes the record in a version: how many bytes, or why the output stays as it was.
pub fn store(from: Record, version: StoredVersion, out: &mut [u8]) -> Result<usize, Fault>
    ensures { (told_written result ≡ store_answer version from (length out.old))
        × (out.new ≡ output_after (store_answer version from (length out.old)) (stored version from) out.old)
        × Means version from (length out.old) (told_written result)
        × LoadsBack version from (told_written result) out.new }
{
    let written = check(from, version, out.len())?;
    let n = head_length(version);
    let head = [
        0x43,
        0x53,
        0x52,
        0x00,
        version_byte(version),
        code_of(from.kind),
        state_byte(from.checksum),
    ];
    put(&head[..n], out, 0);
    put_addresses(&from, out, n);
    Ok(written)
}
