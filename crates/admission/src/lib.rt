// The doorman: the level that a prefix table gives who called, if the header meets the profile. No public function has a `requires`.
#![tactic(auto)]

ghost use Rattle.std.specs.Prelude.{◌≡◌};
ghost use Rattle.admission.specs.Admits.{Admits, admission};
ghost use Rattle.admission.specs.Answers.{told_answer};

use answer::Stop;
use lent::front;
use prefix_table::is_good_table;
use profile::{Admitted, Denial, admit_header};
use reader::read;
use record::block_length;

// Why a caller is not admitted, or not yet.
#[derive(Clone, Copy)]
pub enum NotAdmitted {
    // As the plain reader answers.
    Stop(Stop),
    Denied(Denial),
}

impl From<Stop> for NotAdmitted {
    ghost use Rattle.admission.specs.declared.NotAdmitted.TheVariants.{Stop};

    ghost from_gives = { λ stop e. e ≡ Stop stop };

    fn from(stop: Stop) -> NotAdmitted {
        NotAdmitted::Stop(stop)
    }
}

impl From<Denial> for NotAdmitted {
    ghost use Rattle.admission.specs.declared.NotAdmitted.TheVariants.{Denied};

    ghost from_gives = { λ denial e. e ≡ Denied denial };

    fn from(denial: Denial) -> NotAdmitted {
        NotAdmitted::Denied(denial)
    }
}

// What is answered to a table and the bytes so far.
pub fn admit(table: &[u8], bytes: &[u8]) -> Result<Admitted, NotAdmitted>
    ensures { (told_answer result ≡ admission table.now bytes.now)
        × Admits table.now bytes.now (told_answer result) }
{
    let good = is_good_table(table);
    let bad = !good;
    if bad {
        return Err(NotAdmitted::Denied(Denial::Table));
    }
    let read = read(bytes)?;
    let header = front(bytes, read.length);
    let kind = read.record.kind;
    let at = 16 + block_length(kind);
    let admitted = admit_header(table, read.version, kind, &read.record.source, header, at)?;
    Ok(admitted)
}
