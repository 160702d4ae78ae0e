// Looking into a TLV area, for C callers.
ghost use Rattle.std.specs.Prelude.{drop};
ghost use Rattle.tlv.specs.Tlv.{WellFormed};
ghost use Rattle.tlv_step.specs.Step.{head_at, step_at};
ghost use Rattle.tlv_interface.specs.TlvInterface.{LookupTold, StepTold};

// Looks for the first TLV of a type in a TLV area, of which at most as many TLVs are examined as the limit says. With room for 4 numbers
// they are told; else nothing is written.
#[unsafe(no_mangle)]
pub extern "C" fn dawnhawse_lookup(
    area: &[u8],
    wanted: u8,
    limit: usize,
    numbers: &mut [u64],
) -> u32
    ensures { LookupTold area.now wanted limit numbers.old result numbers.new }
{
    tlv_interface::look_up(area, wanted, limit, numbers)
}

// One step over a TLV area from a place: it looks at all that remains.
#[unsafe(no_mangle)]
pub extern "C" fn dawnhawse_step(area: &[u8], at: usize, numbers: &mut [u64]) -> u32
    ensures { StepTold at (step_at area.now at) numbers.old result numbers.new }
{
    tlv_interface::step(area, at, numbers)
}

// The same with a look at one TLV: as `dawnhawse_step`, where what remains is well-formed.
#[unsafe(no_mangle)]
pub extern "C" fn dawnhawse_next(area: &[u8], at: usize, numbers: &mut [u64]) -> u32
    ensures { StepTold at (head_at area.now at) numbers.old result numbers.new
        × (WellFormed (drop at area.now) → StepTold at (step_at area.now at) numbers.old result numbers.new) }
{
    tlv_interface::next(area, at, numbers)
}
