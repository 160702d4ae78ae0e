// CRC32C, for C callers.
ghost use Rattle.std.specs.Prelude.{◌≡◌};
ghost use Rattle.crc.specs.Crc.{checksum as checksum_of};

// The CRC32C of the bytes (document 02, K6).
#[unsafe(no_mangle)]
pub extern "C" fn dawnhawse_crc32c(bytes: &[u8]) -> u32
    ensures { result ≡ checksum_of bytes.now }
{
    crc::crc32c(bytes)
}
