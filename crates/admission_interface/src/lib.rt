// What C callers are told of a caller's level. No public function has a `requires`.
#![tactic(auto)]

ghost use Rattle.std.specs.Prelude.{◌≡◌};
ghost use Rattle.profile.specs.Answers.{told_profile};
ghost use Rattle.admission.specs.Admits.{admission as admission_of};
ghost use Rattle.admission_interface.specs.AdmissionInterface.{told_admission, AdmissionTold};
ghost use Rattle.admission_interface.specs.KindFrom.{kind_from};

use kind_code::kind_of;
use lent::front;
use numbers::{NUMBERS, Told, put_numbers};
use prefix_table::is_good_table;
use profile::{Admitted, Denial, admit_header};
use read_interface::read;
use record::Kind;

// What is told of a whole header.
fn tell(said: Result<Admitted, Denial>) -> Told
    ensures { result ≡ told_admission (told_profile said) }
{
    match said {
        Ok(caller) => Told {
            answer: 0,
            first: caller.level as u64,
            second: caller.length as u64,
            start: caller.start as u64,
            length: caller.size as u64,
        },
        Err(denial) => Told::one(u32::from(u8::from(denial)), 0),
    }
}

// The kind of a kind code that `read` has told; unspecified, if it is none.
fn kind_from(code: u8) -> Kind
    ensures { result ≡ kind_from code }
{
    kind_of(code).unwrap_or(Kind::Unspecified)
}

// The answer to a table and the bytes so far. With room for 4 numbers they are told; else nothing is written. It goes by what `read` tells, and not through
// `admission::admit`: called at two places, the reader would be slower at both, and a record by value would take five times the stack. What `read` tells is the
// answer, but for an accepted header: of that it tells the parts that the profile is about.
pub fn admit(table: &[u8], bytes: &[u8], numbers: &mut [u64]) -> u32
    ensures { AdmissionTold (admission_of table.now bytes.now) numbers.old result numbers.new }
{
    if numbers.len() < NUMBERS {
        return 14;
    }
    if !is_good_table(table) {
        put_numbers(numbers, 0, 0, 0, 0);
        return 34;
    }
    let mut connection: [u8; 222] = [0; 222];
    let answer = read(bytes, numbers, &mut connection);
    if answer != 0 {
        return answer;
    }
    let header = front(bytes, numbers[0] as usize);
    let version = numbers[1] as u8;
    let kind = kind_from(connection[0]);
    let at = numbers[2] as usize;
    let told = tell(admit_header(table, version, kind, &connection[1..109], header, at));
    told.put(numbers);
    told.answer
}
