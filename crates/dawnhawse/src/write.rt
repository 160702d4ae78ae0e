// The writers of both versions, for C callers.
ghost use Rattle.record.specs.declared.Record.{Record};
ghost use Rattle.line_text.specs.LineText.{written_line};
ghost use Rattle.line_writer.specs.Written.{line_answer};
ghost use Rattle.block_writer.specs.Written.{block_answer, written_block};
ghost use Rattle.checked_writer.specs.Written.{checked_answer, written_checked};
ghost use Rattle.write_interface.specs.WriteInterface.{WritesAsked};

// Writes a connection's version 1 line, and tells its length; or answers why not, and leaves both buffers as they were.
#[unsafe(no_mangle)]
pub extern "C" fn dawnhawse_write_v1(connection: &[u8], out: &mut [u8], numbers: &mut [u64]) -> u32
    ensures { WritesAsked line_answer written_line connection.now out.old numbers.old result out.new numbers.new }
{
    write_interface::write_v1(connection, out, numbers)
}

// Writes a connection's version 2 header with a TLV area; else as `dawnhawse_write_v1`.
#[unsafe(no_mangle)]
pub extern "C" fn dawnhawse_write_v2(
    connection: &[u8],
    area: &[u8],
    out: &mut [u8],
    numbers: &mut [u64],
) -> u32
    ensures { WritesAsked (λ (c : Record). block_answer c area.now) (λ (c : Record). written_block c area.now) connection.now out.old numbers.old result out.new numbers.new }
{
    write_interface::write_v2(connection, area, out, numbers)
}

// The same with a checksum, last in the area (document 02, K6).
#[unsafe(no_mangle)]
pub extern "C" fn dawnhawse_write_v2_checked(
    connection: &[u8],
    area: &[u8],
    out: &mut [u8],
    numbers: &mut [u64],
) -> u32
    ensures { WritesAsked (λ (c : Record). checked_answer c area.now) (λ (c : Record). written_checked c area.now) connection.now out.old numbers.old result out.new numbers.new }
{
    write_interface::write_v2_checked(connection, area, out, numbers)
}
