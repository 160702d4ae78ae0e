// What the doorman's profile says of a header, with the level of its source. No public function has a `requires`.
#![tactic(auto)]

ghost use Rattle.std.specs.Prelude.{◌≡◌, length, drop};
ghost use Rattle.prefix_table.specs.Table.{rows_of};
ghost use Rattle.prefix_table.specs.TableTests.{level_in};
ghost use Rattle.profile.specs.Profile.{of_family, origin_of, if_identified, by_version, source_level};
ghost use Rattle.profile.specs.Answers.{denial_number, family_number, told_profile, told_origin};

use lent::behind;
use prefix_table::level_of;
use record::{Kind, Transport};
use tlv_step::Part;
use unique_id::unique_id;

// The longest header that the profile takes.
const LONGEST: usize = 536;

// Why a caller is not admitted.
#[derive(Clone, Copy)]
pub enum Denial {
    Version,
    Kind,
    Length,
    UniqueId,
    Table,
}

impl From<Denial> for u8 {
    ghost from_gives = { λ denial n. n ≡ denial_number denial };

    fn from(denial: Denial) -> u8 {
        match denial {
            Denial::Version => 30,
            Denial::Kind => 31,
            Denial::Length => 32,
            Denial::UniqueId => 33,
            Denial::Table => 34,
        }
    }
}

// What is told of a caller who is admitted.
#[derive(Clone, Copy)]
pub struct Admitted {
    pub level: u8,
    // The header's length.
    pub length: usize,
    // Where the value of the unique ID starts in the bytes, and its size: 0 and 0 of a local header, which has none.
    pub start: usize,
    pub size: usize,
}

// The families whose prefixes a table has.
#[derive(Clone, Copy)]
enum Family {
    Ip4,
    Ip6,
}

impl Family {
    // The family's number in a row.
    fn number(self) -> u8
        ensures { result ≡ family_number self }
    {
        match self {
            Family::Ip4 => 4,
            Family::Ip6 => 6,
        }
    }
}

// Where a connection comes from, as far as the profile tells kinds apart: a stream has the family of its source.
#[derive(Clone, Copy)]
enum Origin {
    Local,
    Stream(Family),
    Other,
}

// The origin of a connection of this family.
fn of_family(family: Family, transport: Transport) -> Origin
    ensures { told_origin result ≡ of_family (family_number family) transport }
{
    match transport {
        Transport::Stream => Origin::Stream(family),
        Transport::Datagram => Origin::Other,
    }
}

// The origin of a connection of this kind.
fn origin_of(kind: Kind) -> Origin
    ensures { told_origin result ≡ origin_of kind }
{
    match kind {
        Kind::Local => Origin::Local,
        Kind::Ip4(transport) => of_family(Family::Ip4, transport),
        Kind::Ip6(transport) => of_family(Family::Ip6, transport),
        Kind::Unspecified | Kind::Unix(_) => Origin::Other,
    }
}

// What is said of a stream header that is short enough, whose TLV area starts at this place.
fn admit_stream(
    table: &[u8],
    family: Family,
    source: &[u8],
    header: &[u8],
    at: usize,
) -> Result<Admitted, Denial>
    ensures { told_profile result ≡ if_identified (drop at header.now) (length header.now) (level_in (rows_of table.now) (family_number family) source.now) }
{
    let area = behind(header, at);
    match unique_id(area) {
        Some(Part { start, size }) => Ok(Admitted {
            level: level_of(table, family.number(), source),
            length: header.len(),
            start: header.len() - area.len() + start,
            size,
        }),
        None => Err(Denial::UniqueId),
    }
}

// What is said of a header by its version, its kind, its source, its bytes, and where its TLV area starts in them. The version is a number: `by_version`
// answers for each, and a type of two would ask more of callers.
pub fn admit_header(
    table: &[u8],
    version: u8,
    kind: Kind,
    source: &[u8],
    header: &[u8],
    at: usize,
) -> Result<Admitted, Denial>
    ensures { told_profile result ≡ by_version version (origin_of kind) (drop at header.now) (length header.now) (source_level (rows_of table.now) (origin_of kind) source.now) }
{
    let other = version != 2;
    if other {
        return Err(Denial::Version);
    }
    match origin_of(kind) {
        Origin::Other => Err(Denial::Kind),
        _ if LONGEST < header.len() => Err(Denial::Length),
        Origin::Local => Ok(Admitted {
            level: 0,
            length: header.len(),
            start: 0,
            size: 0,
        }),
        Origin::Stream(family) => admit_stream(table, family, source, header, at),
    }
}
