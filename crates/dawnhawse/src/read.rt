// What the bytes so far are, for C callers.
ghost use Rattle.fields.proofs.HeaderVerdict.{verdict as verdict_on};
ghost use Rattle.checksum.specs.State.{checked_verdict};
ghost use Rattle.read_interface.specs.ReadInterface.{spoken, spoken_checked, ReadTold};

// What the bytes so far are: demand 3 of document 01. With room for 4 numbers and 222 bytes of a connection both are told; else nothing
// is written.
#[unsafe(no_mangle)]
pub extern "C" fn dawnhawse_read(bytes: &[u8], numbers: &mut [u64], connection: &mut [u8]) -> u32
    ensures { ReadTold (spoken (verdict_on bytes.now)) numbers.old connection.old result numbers.new connection.new }
{
    read_interface::read(bytes, numbers, connection)
}

// The same with the checksum judged (document 02, K6).
#[unsafe(no_mangle)]
pub extern "C" fn dawnhawse_read_checked(
    bytes: &[u8],
    numbers: &mut [u64],
    connection: &mut [u8],
) -> u32
    ensures { ReadTold (spoken_checked (checked_verdict bytes.now)) numbers.old connection.old result numbers.new connection.new }
{
    read_interface::read_checked(bytes, numbers, connection)
}
