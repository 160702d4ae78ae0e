// Looking into a TLV area: one step over it, on the slice and a place; and the TLVs of a well-formed area, one after the other.
// No public function has a `requires`.
#![tactic(auto)]

ghost use Rattle.std.specs.Prelude.{◌≡◌, ◌+◌, ◌≤◌, true, leb, drop, length, is_ok, IfOk};
ghost use Rattle.tlv.specs.Tlv.{WellFormed};
ghost use Rattle.tlv.specs.Test.{well_formed};
ghost use Rattle.tlv_step.specs.Step.{told_step, head_at, step_at, start_of, length_of, ValuePart, place_after, within};

use exact::number;

/// TLVs do not fill the bytes: the number 12.
#[derive(Clone, Copy)]
pub struct IllFormed;

/// A part of lent bytes: where it starts in them, and how many bytes it has.
#[derive(Clone, Copy)]
pub struct Part {
    pub start: usize,
    pub size: usize,
}

/// A TLV of an area: its type, and its value as a part of the area.
#[derive(Clone, Copy)]
pub struct Tlv {
    pub tlv_type: u8,
    pub value: Part,
}

/// What stands at a place, a TLV or the end, with no look at what lies behind that TLV: for a caller who knows that what remains is well-formed.
pub fn head_at(area: &[u8], at: usize) -> Result<Option<Tlv>, IllFormed>
    ensures head { told_step result ≡ head_at area.now at }
    ensures inside { start_of (told_step result) + length_of (told_step result) ≤ length area.now }
    ensures step { WellFormed (drop at area.now) → told_step result ≡ step_at area.now at }
{
    if area.len() < at {
        return Err(IllFormed);
    }
    match &area[at..] {
        [] => Ok(None),
        [tlv_type, high, low, value @ ..] => {
            let size = number(*high, *low) as usize;
            if value.len() < size {
                return Err(IllFormed);
            }
            let start = at + 3;
            Ok(Some(Tlv {
                tlv_type: *tlv_type,
                value: Part { start, size },
            }))
        }
        _ => Err(IllFormed),
    }
}

/// What stands at a place, if what remains from it is well-formed: each step looks at all of it.
pub fn step_at(area: &[u8], at: usize) -> Result<Option<Tlv>, IllFormed>
    ensures step { told_step result ≡ step_at area.now at }
    ensures inside { start_of (told_step result) + length_of (told_step result) ≤ length area.now }
{
    let rest = area.get(at..).ok_or(IllFormed)?;
    TlvArea::new(rest)?;
    head_at(area, at)
}

// Whether a part lies in the area.
fn lies_in(part: Part, area: &[u8]) -> bool
    ensures { result ≡ leb (part.start + part.size) (length area.now) }
{
    part.start <= area.len() && part.size <= area.len() - part.start
}

/// The value of what a step has shown, with no second look at what remains. Where that doesn't lie in the area, the empty part at 0.
pub fn value_of(area: &[u8], shown: Result<Option<Tlv>, IllFormed>) -> &[u8]
    ensures { ValuePart area.entry (within area.now (told_step shown)) result }
{
    match shown {
        Ok(Some(Tlv { value, .. })) if lies_in(value, area) => &area[value.start..][..value.size],
        _ => &area[0..0],
    }
}

/// The place after what a step has shown at a place. Where that doesn't lie in the area, the same place.
pub fn place_of(area: &[u8], at: usize, shown: Result<Option<Tlv>, IllFormed>) -> usize
    ensures { result ≡ place_after at (within area.now (told_step shown)) }
{
    match shown {
        Ok(Some(Tlv { value, .. })) if lies_in(value, area) => value.start + value.size,
        _ => at,
    }
}

/// Bytes that TLVs fill.
#[derive(Clone, Copy)]
pub struct TlvArea<'a> {
    pub bytes: &'a [u8],
    pub ghost filled: { well_formed bytes.now ≡ true },
}

impl<'a> TlvArea<'a> {
    /// The test, once for all looks into the area.
    pub fn new(bytes: &'a [u8]) -> Result<TlvArea<'a>, IllFormed>
        ensures same { IfOk result (λ area. area.bytes ≡ bytes.entry) }
        ensures tested { is_ok result ≡ well_formed bytes.now }
    {
        if tlv::well_formed(bytes) {
            Ok(TlvArea { bytes })
        } else {
            Err(IllFormed)
        }
    }

    /// Its TLVs, from the first on.
    pub fn tlvs(self) -> Tlvs<'a>
        ensures area { result.area ≡ self.entry.bytes }
        ensures place { result.at ≡ 0 }
    {
        Tlvs {
            area: self.bytes,
            at: 0,
        }
    }
}

/// The TLVs of a well-formed area from a place on.
#[derive(Clone, Copy)]
pub struct Tlvs<'a> {
    pub area: &'a [u8],
    pub at: usize,
    pub ghost filled: { well_formed (drop at area.now) ≡ true },
}

impl<'a> Iterator for Tlvs<'a> {
    ghost use Rattle.std.specs.Iterator.{YieldsFirst, item_count};
    ghost use Rattle.tlv_step.specs.Left.{tlvs_left};

    type Item = Tlv;

    ghost next_gives = { YieldsFirst tlvs_left };

    ghost remaining = { item_count tlvs_left };

    fn next(&mut self) -> Option<Tlv> {
        match head_at(self.area, self.at) {
            Ok(Some(tlv)) => {
                self.at = tlv.value.start + tlv.value.size;
                Some(tlv)
            }
            Ok(None) => None,
            Err(_) => None,
        }
    }
}
