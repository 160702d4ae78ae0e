// The C library: the readers and writers for C callers, over numbers and bytes (include/dawnhawse.h). A static library exports the functions of
// its own crate only, so each stands here and passes on to an interface crate or to `crc`. No public function has a `requires`.
#![tactic(auto)]

mod crc32c;
mod doorman;
mod read;
mod ssl;
mod stored;
mod tlvs;
mod write;

pub use crc32c::dawnhawse_crc32c;
pub use doorman::dawnhawse_doorman;
pub use read::{dawnhawse_read, dawnhawse_read_checked};
pub use ssl::{dawnhawse_read_ssl, dawnhawse_write_ssl};
pub use stored::{
    dawnhawse_back, dawnhawse_forward, dawnhawse_load, dawnhawse_load_v2, dawnhawse_store,
    dawnhawse_store_v2,
};
pub use tlvs::{dawnhawse_lookup, dawnhawse_next, dawnhawse_step};
pub use write::{dawnhawse_write_v1, dawnhawse_write_v2, dawnhawse_write_v2_checked};
