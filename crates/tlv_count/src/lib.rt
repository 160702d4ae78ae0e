// How many TLVs of a type an area has. No public function has a `requires`.
#![tactic(auto)]

ghost use Rattle.std.specs.Prelude.{◌≡◌};
ghost use Rattle.tlv_count.specs.Count.{Counts, told_count, count_in, none_test};

use tlv_step::{IllFormed, TlvArea};

/// Counts the TLVs of a type; an ill-formed area is refused.
pub fn count_of(area: &[u8], wanted: u8) -> Result<usize, IllFormed>
    ensures answer { told_count result ≡ count_in wanted area.now }
    ensures counts { Counts area.now wanted result }
{
    let mut count = 0;
    for tlv in TlvArea::new(area)?.tlvs() {
        let counts = tlv.tlv_type == wanted;
        if counts {
            count += 1;
        }
    }
    Ok(count)
}

/// Whether TLVs fill the area, and none of them is of the type.
pub fn has_none(area: &[u8], wanted: u8) -> bool
    ensures { result ≡ none_test wanted area.now }
{
    matches!(count_of(area, wanted), Ok(0))
}
