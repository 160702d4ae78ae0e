// The version 2 header up to its length: the signature, the command and the family, a field at a time. What a stage answers is the verdict on the
// fields from its place on. No public function has a `requires`.
#![tactic(auto)]

ghost use Rattle.std.specs.Prelude.{◌≡◌};
ghost use Rattle.fields.proofs.BlockFields.{block as block_field};
ghost use Rattle.answer.specs.Headers.{told_block};
ghost use Rattle.block.specs.KindAt.{kind_at};

use answer::{Found, Refusal, Stop};
use block_body::from_length;
use exact::{Scan, literal};
use record::{Kind, family_of};

const LOCAL: u8 = 0x20;

const PROXY: u8 = 0x21;

// The kind by the command in byte 12 and by byte 13, which is not looked at under LOCAL.
fn command(s: &[u8]) -> Result<Kind, Stop>
    ensures { result ≡ kind_at s.now }
{
    match s.get(12..) {
        Some([LOCAL, _, ..]) => Ok(Kind::Local),
        Some([PROXY, byte, ..]) => family_of(*byte).ok_or(Stop::Refused {
            refusal: Refusal::Family,
            place: 13,
        }),
        // Byte 13 and a length of 0: 1 + 2.
        Some([LOCAL | PROXY]) => Err(Stop::More { least: 3 }),
        Some([_, ..]) => Err(Stop::Refused {
            refusal: Refusal::Command,
            place: 12,
        }),
        // The command, byte 13 and a length of 0: 1 + 1 + 2.
        Some([]) | None => Err(Stop::More { least: 4 }),
    }
}

// Whether s begins with a version 2 header; nothing behind the header is looked at.
pub fn block(s: &[u8]) -> Result<Found<Kind>, Stop>
    ensures { told_block s.now result ≡ block_field.verdict s.now }
{
    match literal(s, b"\r\n\r\n\0\r\nQUIT\n") {
        Scan::Accepted((), _) => {
            let kind = command(s)?;
            from_length(s, kind)
        }
        // The command, byte 13 and a length of 0: 1 + 1 + 2.
        Scan::More(least) => Err(Stop::More { least: least + 4 }),
        Scan::Refused(place) => Err(Stop::Refused {
            refusal: Refusal::Start,
            place,
        }),
    }
}
