// Stored forms, for C callers.
ghost use Rattle.stored_form.specs.declared.StoredVersion.TheVariants.{One, Two};
ghost use Rattle.stored_form.specs.Stored.{stored, store_answer};
ghost use Rattle.stored_form.specs.Loading.{load_answer};
ghost use Rattle.read_interface.specs.LoadInterface.{LoadTold};
ghost use Rattle.write_interface.specs.WriteInterface.{WritesAsked, WritesConverted};

use stored_form::StoredVersion;

// Stores a connection in version 1; else as `dawnhawse_write_v1`.
#[unsafe(no_mangle)]
pub extern "C" fn dawnhawse_store(connection: &[u8], out: &mut [u8], numbers: &mut [u64]) -> u32
    ensures { WritesAsked (store_answer One) (stored One) connection.now out.old numbers.old result out.new numbers.new }
{
    write_interface::store(connection, StoredVersion::One, out, numbers)
}

// Stores a connection in version 2, with its checksum state; else as `dawnhawse_store`.
#[unsafe(no_mangle)]
pub extern "C" fn dawnhawse_store_v2(connection: &[u8], out: &mut [u8], numbers: &mut [u64]) -> u32
    ensures { WritesAsked (store_answer Two) (stored Two) connection.now out.old numbers.old result out.new numbers.new }
{
    write_interface::store(connection, StoredVersion::Two, out, numbers)
}

// Loads a connection from version 1. With room for its 222 bytes it is told; else nothing is written.
#[unsafe(no_mangle)]
pub extern "C" fn dawnhawse_load(stored: &[u8], connection: &mut [u8]) -> u32
    ensures { LoadTold (load_answer One stored.now) connection.old result connection.new }
{
    read_interface::load(stored, StoredVersion::One, connection)
}

// Loads a connection from version 2; else as `dawnhawse_load`.
#[unsafe(no_mangle)]
pub extern "C" fn dawnhawse_load_v2(stored: &[u8], connection: &mut [u8]) -> u32
    ensures { LoadTold (load_answer Two stored.now) connection.old result connection.new }
{
    read_interface::load(stored, StoredVersion::Two, connection)
}

// Moves a stored form from version 1 to version 2, and tells its length; or answers why not, and leaves both buffers as they were.
#[unsafe(no_mangle)]
pub extern "C" fn dawnhawse_forward(bytes: &[u8], out: &mut [u8], numbers: &mut [u64]) -> u32
    ensures { WritesConverted One Two bytes.now out.old numbers.old result out.new numbers.new }
{
    write_interface::convert(bytes, StoredVersion::One, StoredVersion::Two, out, numbers)
}

// Moves a stored form from version 2 back to version 1; else as `dawnhawse_forward`.
#[unsafe(no_mangle)]
pub extern "C" fn dawnhawse_back(bytes: &[u8], out: &mut [u8], numbers: &mut [u64]) -> u32
    ensures { WritesConverted Two One bytes.now out.old numbers.old result out.new numbers.new }
{
    write_interface::convert(bytes, StoredVersion::Two, StoredVersion::One, out, numbers)
}
