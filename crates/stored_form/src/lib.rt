// The stored form of a record, versions 1 and 2: what the head of a version has, and what is answered of stored bytes. `store` writes them, `load` reads them, `convert` moves them to the other version. No public function has a `requires`.
#![tactic(auto)]

ghost use Rattle.std.specs.Prelude.{◌≡◌};
ghost use Rattle.stored_form.specs.Heads.{version_byte, head_length, keeps_test};
ghost use Rattle.stored_form.specs.Loading.{flaw_number};
ghost use Rattle.stored_form.specs.declared.ConvertError.TheVariants.{Invalid, Refused};

use answer::Fault;
use clean::is_absent;
use record::Checksum;

// The versions of the stored form.
#[derive(Clone, Copy)]
pub enum StoredVersion {
    One,
    Two,
}

// The second byte of a version's two. (Not From, as `head_length` is not: a conversion to a number would not say which of the two it gives.)
pub fn version_byte(version: StoredVersion) -> u8
    ensures { result ≡ version_byte version }
{
    match version {
        StoredVersion::One => 0x01,
        StoredVersion::Two => 0x02,
    }
}

// How many bytes stand before the address block.
pub fn head_length(version: StoredVersion) -> usize
    ensures { result ≡ head_length version }
{
    match version {
        StoredVersion::One => 6,
        StoredVersion::Two => 7,
    }
}

// Whether a version can say this state.
pub fn keeps(version: StoredVersion, checksum: Checksum) -> bool
    ensures { result ≡ keeps_test version checksum }
{
    match version {
        StoredVersion::One => is_absent(checksum),
        StoredVersion::Two => true,
    }
}

// Why stored bytes are not a record: numbers 15 to 18, and 24.
#[derive(Clone, Copy)]
pub enum Flaw {
    Mark,
    Version,
    Code,
    State,
    Length,
}

impl From<Flaw> for u8 {
    ghost from_gives = { λ flaw n. n ≡ flaw_number flaw };

    fn from(flaw: Flaw) -> u8 {
        match flaw {
            Flaw::Mark => 15,
            Flaw::Version => 16,
            Flaw::Code => 17,
            Flaw::State => 24,
            Flaw::Length => 18,
        }
    }
}

// Why a conversion left the output as it was: its input is no stored form, or the writer of the other version refuses.
#[derive(Clone, Copy)]
pub enum ConvertError {
    Invalid(Flaw),
    Refused(Fault),
}

impl From<Flaw> for ConvertError {
    ghost from_gives = { λ flaw error. error ≡ Invalid flaw };

    fn from(flaw: Flaw) -> ConvertError {
        ConvertError::Invalid(flaw)
    }
}

impl From<Fault> for ConvertError {
    ghost from_gives = { λ fault error. error ≡ Refused fault };

    fn from(fault: Fault) -> ConvertError {
        ConvertError::Refused(fault)
    }
}
