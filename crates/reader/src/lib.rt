// The reader of PROXY protocol headers of both versions: what lent received bytes are. No public function has a `requires`.
#![tactic(auto)]

ghost use Rattle.std.specs.Prelude.{◌≡◌};
ghost use Rattle.answer.specs.Headers.{header_of};
ghost use Rattle.reader.specs.Read.{Reads, Sees};

use address_block::{addresses_of, record_from};
use answer::{Header, Sight, Stop};
use block::block;
use lent::behind;
use line::line;

// The whole header that s begins with, before a record is made of it; or why there is none.
pub fn sight(s: &[u8]) -> Result<Sight, Stop>
    ensures { Sees s.now result }
{
    match s.first() {
        // "PROXY UNKNOWN" and CR LF: 13 + 2.
        None => Err(Stop::More { least: 15 }),
        Some(first) => {
            let text = *first == b'P';
            if text {
                return Ok(Sight::Line(line(s)?));
            }
            Ok(Sight::Block(block(s)?))
        }
    }
}

// The header that is seen in s, with its record.
pub fn header_of(s: &[u8], sight: Sight) -> Header
    ensures { result ≡ header_of s.now sight }
{
    match sight {
        Sight::Line(line) => {
            let caller = line.value;
            Header {
                length: line.end,
                version: 1,
                record: record_from(
                    caller.kind,
                    &caller.source,
                    &caller.destination,
                    caller.source_port,
                    caller.destination_port,
                ),
            }
        }
        Sight::Block(block) => Header {
            length: block.end,
            version: 2,
            record: addresses_of(block.value, behind(s, 16)),
        },
    }
}

// The whole header that s begins with, or why there is none: the one answer that the claim allows, for every s.
pub fn read(s: &[u8]) -> Result<Header, Stop>
    ensures { Reads s.now result }
{
    let seen = sight(s)?;
    Ok(header_of(s, seen))
}
