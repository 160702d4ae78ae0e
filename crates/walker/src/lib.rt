// A walker over a TLV area: it holds the lent area itself and its place in it. The work is in `tlv_step`, on the slice and
// the place; the walker's step is thin. No public function has a `requires`.
#![tactic(auto)]

ghost use Rattle.std.specs.Prelude.{◌≡◌, IfOk, IfSome};
ghost use Rattle.tlv_step.specs.Step.{step_at, ValuePart, place_after};
ghost use Rattle.walker.specs.Shown.{told_shown};

use tlv_step::{IllFormed, Tlv, place_of, step_at, value_of};

/// A walker holds the lent area itself and its place in it.
#[derive(Clone, Copy)]
pub struct Walker<'a> {
    pub area: &'a [u8],
    pub at: usize,
}

/// What a step shows: a TLV, and its value as the very part of the lent bytes.
#[derive(Clone, Copy)]
pub struct Shown<'a> {
    pub tlv: Tlv,
    pub value: &'a [u8],
}

impl<'a> Walker<'a> {
    /// A walker at the start of an area.
    pub fn new(area: &'a [u8]) -> Walker<'a>
        ensures area { result.area ≡ area.entry }
        ensures place { result.at ≡ 0 }
    {
        Walker { area, at: 0 }
    }

    /// One step: what stands at the walker's place, a TLV or the end, if what remains from it is well-formed. The walker moves just past a
    /// shown TLV, and else stays where it was.
    pub fn step(&mut self) -> Result<Option<Shown<'a>>, IllFormed>
        ensures step { told_shown result ≡ step_at self.old.area.now self.old.at }
        ensures value { IfOk result (λ o. IfSome o (λ s. ValuePart self.old.area (step_at self.old.area.now self.old.at) s.value)) }
        ensures area { self.new.area ≡ self.old.area }
        ensures place { self.new.at ≡ place_after self.old.at (step_at self.old.area.now self.old.at) }
    {
        let shown = step_at(self.area, self.at);
        let value = value_of(self.area, shown);
        self.at = place_of(self.area, self.at, shown);
        match shown? {
            Some(tlv) => Ok(Some(Shown { tlv, value })),
            None => Ok(None),
        }
    }
}
