// Moving a stored form to the other version. No public function has a `requires`.
#![tactic(auto)]

ghost use Rattle.std.specs.Prelude.{◌≡◌, length};
ghost use Rattle.answer.specs.Answers.{output_after};
ghost use Rattle.stored_form.specs.Converting.{converted, convert_answer, told_converted, LoadThenStore, GoesBack};

use load::load;
use store::store;
use stored_form::{ConvertError, StoredVersion};

// Writes the form that the bytes are in one version as the form of another: how many bytes, or why the output stays as it was.
pub fn convert(
    s: &[u8],
    from: StoredVersion,
    to: StoredVersion,
    out: &mut [u8],
) -> Result<usize, ConvertError>
    ensures { (told_converted result ≡ convert_answer from to s.now (length out.old))
        × (out.new ≡ output_after (convert_answer from to s.now (length out.old)) (converted from to s.now) out.old)
        × LoadThenStore from to s.now out.old (told_converted result) out.new
        × GoesBack from to s.now (told_converted result) out.new }
{
    let loaded = load(s, from)?;
    let n = store(loaded, to, out)?;
    Ok(n)
}
