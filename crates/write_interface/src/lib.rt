// Writing for C callers: a line, a header or a stored form from the bytes of a connection, or a stored form from that of another version. No public
// function has a `requires`.
#![tactic(auto)]

ghost use Rattle.std.specs.Prelude.{◌≡◌, length};
ghost use Rattle.record.specs.declared.Record.{Record};
ghost use Rattle.answer.specs.Answers.{told_written, output_after};
ghost use Rattle.line_text.specs.LineText.{written_line};
ghost use Rattle.line_writer.specs.Written.{line_answer};
ghost use Rattle.block_writer.specs.Written.{block_answer, written_block};
ghost use Rattle.checked_writer.specs.Written.{written_checked, checked_answer};
ghost use Rattle.stored_form.specs.Stored.{stored, store_answer};
ghost use Rattle.write_interface.specs.WriteInterface.{WritesAsked, WritesConverted};

use answer::Fault;
use checked_writer::write_header;
use line_writer::write_line;
use numbers::{room_beside, tell_converted, tell_written};
use record::Record;
use request::request;
use store::store as write_stored;
use stored_form::StoredVersion;

// A form in which a record is written: what is answered for an output of a size, and the bytes. What is written fits the output.
trait Form {
    ghost use Rattle.std.specs.Prelude.{ℕ, List, ◌≡◌, length};
    ghost use Rattle.record.specs.declared.Record.{Record};
    ghost use Rattle.answer.specs.Answers.{WriteAnswer, told_written, output_after};
    ghost use Rattle.answer.proofs.OutputLaws.{Within};

    ghost answer: { Self → Record → (room : ℕ) → WriteAnswer };

    ghost text: { Self → Record → List ℕ };

    fn write(&self, from: Record, out: &mut [u8]) -> Result<usize, Fault>
        ensures answered { told_written result ≡ answer self.now from (length out.old) }
        ensures left { out.new ≡ output_after (answer self.now from (length out.old)) (text self.now from) out.old };

    ghost within: { (form : Self) (r : Record) (room : ℕ) → Within room (answer form r room) };
}

// The version 1 line.
#[derive(Clone, Copy)]
struct Line;

impl Form for Line {
    ghost use Rattle.line_text.specs.LineText.{written_line};
    ghost use Rattle.line_writer.specs.Written.{line_answer};
    ghost use Rattle.line_writer.proofs.Demand.{line_within};

    ghost answer = { λ form. line_answer };

    ghost text = { λ form. written_line };

    fn write(&self, from: Record, out: &mut [u8]) -> Result<usize, Fault> {
        write_line(from, out)
    }

    ghost within = { λ form. line_within };
}

// The version 2 header with this TLV area, and a checksum last in it on request.
#[derive(Clone, Copy)]
struct Header<'a> {
    area: &'a [u8],
    request: bool,
}

impl<'a> Form for Header<'a> {
    ghost use Rattle.checked_writer.specs.Written.{header_answer, header_text};
    ghost use Rattle.checked_writer.proofs.Demand.{header_within};

    ghost answer = { λ form r. header_answer form.request r form.area.now };

    ghost text = { λ form r. header_text form.request r form.area.now };

    fn write(&self, from: Record, out: &mut [u8]) -> Result<usize, Fault> {
        write_header(from, self.area, self.request, out)
    }

    ghost within = { λ form r room. header_within form.request r form.area.now room };
}

// The stored form of this version.
#[derive(Clone, Copy)]
struct InVersion(StoredVersion);

impl Form for InVersion {
    ghost use Rattle.stored_form.specs.Stored.{stored, store_answer};
    ghost use Rattle.stored_form.proofs.RoundTrip.{store_within};

    ghost answer = { λ form. store_answer form.0 };

    ghost text = { λ form. stored form.0 };

    fn write(&self, from: Record, out: &mut [u8]) -> Result<usize, Fault> {
        write_stored(from, self.0, out)
    }

    ghost within = { λ form. store_within form.0 };
}

// Writes a connection in a form, and tells how many bytes; or answers why not, and leaves both buffers as they were.
fn write<F: Form>(form: &F, connection: &[u8], out: &mut [u8], numbers: &mut [u64]) -> u32
    ensures { WritesAsked (F.answer form.now) (F.text form.now) connection.now out.old numbers.old result out.new numbers.new }
{
    let from = match request(connection) {
        Ok(from) => from,
        Err(error) => return u32::from(error),
    };
    let room = room_beside(numbers.len(), out.len());
    tell_written(form.write(from, &mut out[..room]), numbers)
}

// Writes a connection's version 1 line, and tells its length; or answers why not, and leaves both buffers as they were.
pub fn write_v1(connection: &[u8], out: &mut [u8], numbers: &mut [u64]) -> u32
    ensures { WritesAsked line_answer written_line connection.now out.old numbers.old result out.new numbers.new }
{
    write(&Line, connection, out, numbers)
}

// Writes a connection's version 2 header with a TLV area; else as `write_v1`.
pub fn write_v2(connection: &[u8], area: &[u8], out: &mut [u8], numbers: &mut [u64]) -> u32
    ensures { WritesAsked (λ (c : Record). block_answer c area.now) (λ (c : Record). written_block c area.now) connection.now out.old numbers.old result out.new numbers.new }
{
    let plain = Header {
        area,
        request: false,
    };
    write(&plain, connection, out, numbers)
}

// The same with a checksum, last in the area.
pub fn write_v2_checked(connection: &[u8], area: &[u8], out: &mut [u8], numbers: &mut [u64]) -> u32
    ensures { WritesAsked (λ (c : Record). checked_answer c area.now) (λ (c : Record). written_checked c area.now) connection.now out.old numbers.old result out.new numbers.new }
{
    let checked = Header {
        area,
        request: true,
    };
    write(&checked, connection, out, numbers)
}

// Stores a connection in a version; else as `write_v1`.
pub fn store(connection: &[u8], version: StoredVersion, out: &mut [u8], numbers: &mut [u64]) -> u32
    ensures { WritesAsked (store_answer version) (stored version) connection.now out.old numbers.old result out.new numbers.new }
{
    write(&InVersion(version), connection, out, numbers)
}

// Writes the stored form of one version as that of another, and tells its length; or answers why not, and leaves both buffers as they were.
pub fn convert(
    bytes: &[u8],
    from: StoredVersion,
    to: StoredVersion,
    out: &mut [u8],
    numbers: &mut [u64],
) -> u32
    ensures { WritesConverted from to bytes.now out.old numbers.old result out.new numbers.new }
{
    let room = room_beside(numbers.len(), out.len());
    tell_converted(convert::convert(bytes, from, to, &mut out[..room]), numbers)
}
