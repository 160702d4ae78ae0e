// Lookup: the first TLV of a type in a TLV area, of which at most as many TLVs are examined as a limit says.
// No public function has a `requires`.
#![tactic(auto)]

ghost use Rattle.lookup.specs.Lookup.{LooksUp};

use tlv_step::{IllFormed, Part, TlvArea};

/// What a lookup finds out.
#[derive(Clone, Copy)]
pub enum Answer {
    /// A TLV of that type is among those examined; its value is this part of the area.
    Found(Part),
    /// The area has none.
    Absent,
    /// There are more TLVs than the limit, and none of those examined is of that type.
    GaveUp,
}

/// The answer, and how many TLVs were examined.
#[derive(Clone, Copy)]
pub struct Examined {
    pub answer: Answer,
    pub count: usize,
}

/// Looks for the first TLV of a type. An ill-formed area is refused before any TLV is examined.
pub fn lookup(area: &[u8], wanted: u8, limit: usize) -> Result<Examined, IllFormed>
    ensures { LooksUp area.now wanted limit result }
{
    let mut count = 0;
    for tlv in TlvArea::new(area)?.tlvs() {
        if limit <= count {
            let answer = Answer::GaveUp;
            return Ok(Examined { answer, count });
        }
        count += 1;
        if tlv.tlv_type == wanted {
            let answer = Answer::Found(tlv.value);
            return Ok(Examined { answer, count });
        }
    }
    let answer = Answer::Absent;
    Ok(Examined { answer, count })
}
