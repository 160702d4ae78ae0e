// What C callers are told of received bytes and of stored ones. No public function has a `requires`.
#![tactic(auto)]

ghost use Rattle.std.specs.Prelude.{◌≡◌, List, ℕ};
ghost use Rattle.answer.specs.Headers.{header_of};
ghost use Rattle.numbers.specs.Numbers.{header_told};
ghost use Rattle.fields.proofs.HeaderVerdict.{verdict as verdict_on};
ghost use Rattle.stored_form.specs.Loading.{load_answer};
ghost use Rattle.checksum.specs.State.{checked_verdict};
ghost use Rattle.read_interface.specs.ReadInterface.{spoken, spoken_checked, ReadTold};
ghost use Rattle.read_interface.specs.LoadInterface.{LoadTold};

use answer::Sight;
use checked_reader::check_header;
use connection::{CONNECTION, put_none, put_record, put_sight};
use kind_code::state_byte;
use lent::front;
use numbers::{NUMBERS, Told, outcome_number, put_numbers};
use reader::sight;
use stored_form::StoredVersion;

// What a header tells that is seen in size bytes.
fn tell(sight: &Sight, size: usize) -> Told
    ensures { (s : List ℕ) → result ≡ header_told (header_of s sight.now).length (header_of s sight.now).version (header_of s sight.now).«record».kind size }
{
    match sight {
        Sight::Line(line) => Told::header(line.end, 1, line.value.kind, size),
        Sight::Block(block) => Told::header(block.end, 2, block.value, size),
    }
}

// What the bytes so far are. With room for 4 numbers and 222 bytes of a connection both are told; else nothing is written.
pub fn read(bytes: &[u8], numbers: &mut [u64], connection: &mut [u8]) -> u32
    ensures { ReadTold (spoken (verdict_on bytes.now)) numbers.old connection.old result numbers.new connection.new }
{
    if numbers.len() < NUMBERS {
        return 14;
    }
    if connection.len() < CONNECTION {
        return 14;
    }
    match sight(bytes) {
        Ok(seen) => {
            put_sight(bytes, &seen, connection);
            tell(&seen, bytes.len()).put(numbers);
            0
        }
        Err(stop) => {
            put_none(connection);
            let told = Told::stop(stop);
            told.put(numbers);
            told.answer
        }
    }
}

// The same with the checksum judged: of an accepted header it goes by the numbers that were told, and puts the state last.
pub fn read_checked(bytes: &[u8], numbers: &mut [u64], connection: &mut [u8]) -> u32
    ensures { ReadTold (spoken_checked (checked_verdict bytes.now)) numbers.old connection.old result numbers.new connection.new }
{
    let answer = read(bytes, numbers, connection);
    if answer != 0 {
        return answer;
    }
    let header = front(bytes, numbers[0] as usize);
    match check_header(header, numbers[2] as usize) {
        Some(checksum) => {
            connection[221] = state_byte(checksum);
            0
        }
        None => {
            put_none(connection);
            put_numbers(numbers, 0, 0, 0, 0);
            23
        }
    }
}

// Loads a connection from its stored form in a version. With room for its 222 bytes it is told; else nothing is written.
pub fn load(stored: &[u8], version: StoredVersion, connection: &mut [u8]) -> u32
    ensures { LoadTold (load_answer version stored.now) connection.old result connection.new }
{
    if connection.len() < CONNECTION {
        return 14;
    }
    let loaded = load::load(stored, version);
    let number = outcome_number(&loaded);
    match loaded {
        Ok(from) => put_record(from, connection),
        Err(_) => put_none(connection),
    }
    number
}
