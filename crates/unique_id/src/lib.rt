// The unique ID of a TLV area: its only TLV 0x05, the specification's PP2_TYPE_UNIQUE_ID. No public function has a `requires`.
#![tactic(auto)]

ghost use Rattle.std.specs.Prelude.{◌≡◌, Some, None};
ghost use Rattle.exact.specs.Pick.{pick};
ghost use Rattle.unique_id.specs.UniqueId.{is_sized, id_in};

use lookup::{Answer, lookup};
use tlv_count::count_of;
use tlv_step::Part;

// The type of the TLV.
const UNIQUE_ID: u8 = 0x05;

// A value of 1 to 128 bytes.
fn if_sized(value: Part) -> Option<Part>
    ensures { result ≡ pick (is_sized value) (Some value) None }
{
    let sized = 1 <= value.size && value.size <= 128;
    if sized { Some(value) } else { None }
}

/// The unique ID of an area, as a part of it; none where TLVs do not fill it, or there is not exactly one of 1 to 128 bytes.
pub fn unique_id(area: &[u8]) -> Option<Part>
    ensures { result ≡ id_in area.now }
{
    let count = count_of(area, UNIQUE_ID).ok()?;
    if count != 1 {
        return None;
    }
    let examined = lookup(area, UNIQUE_ID, area.len()).ok()?;
    match examined.answer {
        Answer::Found(value) => if_sized(value),
        Answer::Absent => None,
        Answer::GaveUp => None,
    }
}
