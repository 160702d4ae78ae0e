// The reader of the stored form, versions 1 and 2. No public function has a `requires`.
#![tactic(auto)]

ghost use Rattle.std.specs.Prelude.{◌≡◌, ◌≤◌, length};
ghost use Rattle.stored_form.specs.Heads.{head_length, state_in};
ghost use Rattle.load.specs.After.{told_into};
ghost use Rattle.stored_form.specs.Loading.{told_loaded, has_mark, has_version, load_block, load_answer};
ghost use Rattle.stored_form.specs.Meaning.{LoadMeans};

use address_block::addresses_of;
use clean::clean_state;
use kind_code::{kind_of, state_of};
use record::{Checksum, Kind, Record, blank, block_length, with_checksum};
use stored_form::{Flaw, StoredVersion, head_length, version_byte};

fn has_mark(s: &[u8]) -> bool
    ensures { result ≡ has_mark s.now }
{
    s.starts_with(b"CSR")
}

fn has_version(s: &[u8], version: StoredVersion) -> bool
    requires { 6 ≤ length s.now }
    ensures { result ≡ has_version version s.now }
{
    s[3] == 0x00 && s[4] == version_byte(version)
}

// The state that the bytes say.
fn state_in(s: &[u8], version: StoredVersion) -> Option<Checksum>
    requires { head_length version ≤ length s.now }
    ensures { result ≡ state_in version s.now }
{
    match version {
        StoredVersion::One => Some(Checksum::Absent),
        StoredVersion::Two => state_of(s[6]),
    }
}

// Puts the record of this kind and state, where the address block is whole.
fn load_block(
    s: &[u8],
    version: StoredVersion,
    kind: Kind,
    checksum: Checksum,
    into: &mut Record,
) -> Result<(), Flaw>
    requires { head_length version ≤ length s.now }
    ensures { told_into result into.new ≡ load_block version kind checksum s.now }
{
    let n = head_length(version);
    let size = n + block_length(kind);
    if s.len() != size {
        return Err(Flaw::Length);
    }
    *into = with_checksum(addresses_of(kind, &s[n..]), checksum);
    Ok(())
}

// Puts the record that the bytes are the stored form of. A record that came back by value from here and from `load_block` would be copied, and take
// stack, at each.
fn load_into(s: &[u8], version: StoredVersion, into: &mut Record) -> Result<(), Flaw>
    ensures { told_into result into.new ≡ load_answer version s.now }
{
    if s.len() < head_length(version) {
        return Err(Flaw::Length);
    }
    if !has_mark(s) {
        return Err(Flaw::Mark);
    }
    if !has_version(s, version) {
        return Err(Flaw::Version);
    }
    let Some(kind) = kind_of(s[5]) else {
        return Err(Flaw::Code);
    };
    let Some(checksum) = state_in(s, version) else {
        return Err(Flaw::State);
    };
    if !clean_state(kind, checksum) {
        return Err(Flaw::State);
    }
    load_block(s, version, kind, checksum, into)
}

// Reads a record back, where the bytes are its stored form in this version and no others.
pub fn load(s: &[u8], version: StoredVersion) -> Result<Record, Flaw>
    ensures { (told_loaded result ≡ load_answer version s.now) × LoadMeans version s.now (told_loaded result) }
{
    let mut into = blank(Kind::Unspecified);
    load_into(s, version, &mut into)?;
    Ok(into)
}
