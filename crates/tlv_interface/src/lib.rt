// Looking into a TLV area, as C callers ask for it. No public function has a `requires`.
#![tactic(auto)]

ghost use Rattle.std.specs.Prelude.{◌≡◌, ◌+◌, ◌^◌, ◌<◌, ℕ, drop};
ghost use Rattle.tlv.specs.Tlv.{WellFormed};
ghost use Rattle.tlv_step.specs.Step.{told_step, head_at, step_at, start_of, length_of, place_after};
ghost use Rattle.lookup.specs.Lookup.{told_lookup};
ghost use Rattle.tlv_interface.specs.TlvInterface.{lookup_numbers, LookupTold, StepTold};

use lookup::{Answer, Examined, lookup};
use numbers::{NUMBERS, lookup_number, put_all, put_numbers};
use tlv_step::{IllFormed, Part, Tlv, head_at};
use walker::Walker;

// What was looked up, as numbers; where nothing is found, 0 for a start and a length.
fn numbers_of(looked_up: Result<Examined, IllFormed>, wanted: u8) -> [u64; 4]
    ensures { result ≡ lookup_numbers wanted (told_lookup looked_up) }
{
    match looked_up {
        Ok(Examined { answer, count }) => match answer {
            Answer::Found(Part { start, size }) => [
                count as u64,
                wanted as u64,
                start as u64,
                size as u64,
            ],
            Answer::Absent | Answer::GaveUp => [count as u64, wanted as u64, 0, 0],
        },
        Err(IllFormed) => [0, wanted as u64, 0, 0],
    }
}

// Looks for the first TLV of a type in a TLV area, of which at most as many TLVs are examined as the limit says. With room for 4 numbers
// they are told; else nothing is written.
pub fn look_up(area: &[u8], wanted: u8, limit: usize, numbers: &mut [u64]) -> u32
    ensures { LookupTold area.now wanted limit numbers.old result numbers.new }
{
    if numbers.len() < NUMBERS {
        return 14;
    }
    let looked_up = lookup(area, wanted, limit);
    put_all(&numbers_of(looked_up, wanted), numbers);
    lookup_number(looked_up)
}

// Tells what a step shows, and the place behind it. With room for 4 numbers they are told; else nothing is written.
fn tell_step(shown: Result<Option<Tlv>, IllFormed>, behind: usize, numbers: &mut [u64]) -> u32
    ensures { (at : ℕ) → behind ≡ place_after at (told_step shown) → StepTold at (told_step shown) numbers.old result numbers.new }
{
    if numbers.len() < NUMBERS {
        return 14;
    }
    match shown {
        Ok(Some(Tlv { tlv_type, value })) => {
            put_numbers(
                numbers,
                behind as u64,
                tlv_type as u64,
                value.start as u64,
                value.size as u64,
            );
            0
        }
        Ok(None) => {
            put_numbers(numbers, behind as u64, 0, 0, 0);
            252
        }
        Err(IllFormed) => {
            put_numbers(numbers, behind as u64, 0, 0, 0);
            12
        }
    }
}

// The place behind what is shown at a place.
fn behind(at: usize, shown: Result<Option<Tlv>, IllFormed>) -> usize
    requires { start_of (told_step shown) + length_of (told_step shown) < 2 ^ 64 }
    ensures { result ≡ place_after at (told_step shown) }
{
    match shown {
        Ok(Some(Tlv { value, .. })) => value.start + value.size,
        _ => at,
    }
}

// One step over a TLV area from a place: it looks at all that remains.
pub fn step(area: &[u8], at: usize, numbers: &mut [u64]) -> u32
    ensures { StepTold at (step_at area.now at) numbers.old result numbers.new }
{
    let mut walker = Walker { area, at };
    let shown = walker.step().map(|shown| shown.map(|s| s.tlv));
    tell_step(shown, walker.at, numbers)
}

// The same with a look at one TLV: as `step`, where what remains is well-formed.
pub fn next(area: &[u8], at: usize, numbers: &mut [u64]) -> u32
    ensures { StepTold at (head_at area.now at) numbers.old result numbers.new
        × (WellFormed (drop at area.now) → StepTold at (step_at area.now at) numbers.old result numbers.new) }
{
    let shown = head_at(area, at);
    tell_step(shown, behind(at, shown), numbers)
}
