// The inside of TLV 0x20, for C callers.
ghost use Rattle.ssl_reader.specs.Ssl.{said_in};
ghost use Rattle.ssl_writer.specs.Written.{pieces_of};
ghost use Rattle.ssl_interface.specs.SslInterface.{SslTold, present_of, WritesSsl};

// Reads the value of TLV 0x20 (document 02, K2). With room for 12 numbers they are told; else nothing is written.
#[unsafe(no_mangle)]
pub extern "C" fn dawnhawse_read_ssl(value: &[u8], numbers: &mut [u64]) -> u32
    ensures { SslTold (said_in value.now) numbers.old result numbers.new }
{
    ssl_interface::read(value, numbers)
}

// Writes the value of TLV 0x20, and tells its length; or answers why not, and leaves both buffers as they were.
#[unsafe(no_mangle)]
pub extern "C" fn dawnhawse_write_ssl(
    client: u8,
    verify: u32,
    present: u8,
    version: &[u8],
    common_name: &[u8],
    cipher: &[u8],
    signature: &[u8],
    key: &[u8],
    out: &mut [u8],
    numbers: &mut [u64],
) -> u32
    ensures { WritesSsl client verify (pieces_of (present_of present) version.now common_name.now cipher.now signature.now key.now) out.old numbers.old result out.new numbers.new }
{
    ssl_interface::write(
        client,
        verify,
        present,
        version,
        common_name,
        cipher,
        signature,
        key,
        out,
        numbers,
    )
}
