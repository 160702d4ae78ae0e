// Which level a caller has, for C callers.
ghost use Rattle.admission.specs.Admits.{admission};
ghost use Rattle.admission_interface.specs.AdmissionInterface.{AdmissionTold};

// The answer to a prefix table and the bytes so far (document 02, K14). With room for 4 numbers they are told; else nothing is written.
#[unsafe(no_mangle)]
pub extern "C" fn dawnhawse_doorman(table: &[u8], bytes: &[u8], numbers: &mut [u64]) -> u32
    ensures { AdmissionTold (admission table.now bytes.now) numbers.old result numbers.new }
{
    admission_interface::admit(table, bytes, numbers)
}
