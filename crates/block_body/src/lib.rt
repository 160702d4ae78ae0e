// What the length of a version 2 header frames: a block that is not looked at, or the address block and the TLVs behind it. What a stage answers
// is the verdict on the fields from its place on. No public function has a `requires`.
#![tactic(auto)]

ghost use Rattle.std.specs.Prelude.{◌≡◌, true, ◌+◌, ◌≤◌, ◌<◌, IfOk, IfErr, length, drop};
ghost use Rattle.exact.specs.Field.{shift};
ghost use Rattle.exact.specs.Network.{number_at};
ghost use Rattle.record.specs.Kinds.{block_length};
ghost use Rattle.record.specs.Records.{bare};
ghost use Rattle.fields.specs.BlockFields.{addresses as addresses_field, skipped_bytes};
ghost use Rattle.fields.proofs.BlockFields.{family_rest};
ghost use Rattle.fields.specs.Lengths.{fits as fits_in};
ghost use Rattle.answer.specs.Headers.{told_block};
ghost use Rattle.block_body.specs.Shortest.{shortest};

use answer::{Found, Refusal, Stop};
use exact::Scan;
use record::{Kind, block_length};
use tlv::region;

// "L must be A, or at least A + 3."
fn fits(size: usize, block: usize) -> bool
    requires { block < 256 }
    ensures { result ≡ fits_in block size }
{
    size == block || block + 3 <= size
}

// The length in bytes 14 and 15. Before it is whole, what is missing of it, and the shortest block that it may frame, of which `block` bytes
// are the least.
fn length_of(s: &[u8], block: usize) -> Result<usize, Stop>
    requires { block < 256 }
    ensures whole { IfOk result (λ n. (16 ≤ length s.now) × (n ≡ number_at s.now 14) × (n < 65536)) }
    ensures short { IfErr result (λ e. (length s.now < 16) × (e ≡ Stop.More (shortest block s.now))) }
{
    match s.get(14..) {
        Some([high, low, ..]) => Ok(u16::from_be_bytes([*high, *low]) as usize),
        Some([0]) => Err(Stop::More { least: block + 1 }),
        Some([high]) => Err(Stop::More {
            least: *high as usize * 256 + 1,
        }),
        Some([]) | None => Err(Stop::More { least: block + 2 }),
    }
}

// From 16 on, where the block is not looked at. (Not one with `addresses`: this one counts bytes, and that one judges TLVs.)
fn skipped(s: &[u8], kind: Kind, size: usize) -> Result<Found<Kind>, Stop>
    requires none { block_length kind ≡ 0 }
    requires whole { 16 ≤ length s.now }
    requires small { size < 65536 }
    ensures { told_block s.now result ≡ shift 16 ((skipped_bytes (bare kind) size).verdict (drop 16 s.now)) }
{
    let end = 16 + size;
    if s.len() < end {
        return Err(Stop::More {
            least: end - s.len(),
        });
    }
    Ok(Found { value: kind, end })
}

// From 16 on: the address block, and the TLVs that fill the rest of the length.
#[tactic(auto, using(fields::specs::BlockFields::block_small, fields::proofs::LengthField::fits_least))]
fn addresses(s: &[u8], kind: Kind, size: usize) -> Result<Found<Kind>, Stop>
    requires some { block_length kind ≡ 0 → ⊥ }
    requires fit { fits_in (block_length kind) size ≡ true }
    requires whole { 16 ≤ length s.now }
    requires small { size < 65536 }
    ensures { told_block s.now result ≡ shift 16 ((addresses_field kind size).verdict (drop 16 s.now)) }
{
    let block = block_length(kind);
    let at = 16 + block;
    if s.len() < at {
        return Err(Stop::More {
            least: 16 + size - s.len(),
        });
    }
    match region(&s[at..], size - block) {
        Scan::Accepted((), n) => Ok(Found {
            value: kind,
            end: at + n,
        }),
        Scan::More(least) => Err(Stop::More { least }),
        Scan::Refused(place) => Err(Stop::Refused {
            refusal: Refusal::Tlv,
            place: at + place,
        }),
    }
}

// From 14 on: under LOCAL, or under PROXY where byte 13 says the kind.
pub fn from_length(s: &[u8], kind: Kind) -> Result<Found<Kind>, Stop>
    ensures { told_block s.now result ≡ shift 14 ((family_rest kind).verdict (drop 14 s.now)) }
{
    let block = block_length(kind);
    let size = length_of(s, block)?;
    if block == 0 {
        skipped(s, kind, size)
    } else if fits(size, block) {
        addresses(s, kind, size)
    } else {
        Err(Stop::Refused {
            refusal: Refusal::Length,
            place: 15,
        })
    }
}
