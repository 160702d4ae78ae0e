// Judges a list of cases on standard input, each three bytes of length (high first) and so many bytes, at most 65,536, and writes an
// answer line for each. For comparisons: many inputs in one process.
#![tactic(auto)]

use std::io;
use std::io::{Read, Write};

// One case, read into the buffer; false where there is none, or none whole that fits.
fn judge_one<R: Read, W: Write>(
    reader: &mut R,
    writer: &mut W,
    buffer: &mut [u8],
) -> io::Result<bool> {
    let mut head = [0u8; 3];
    if report::read_full(reader, &mut head)? < 3 {
        return Ok(false);
    }
    let n = u32::from_be_bytes([0, head[0], head[1], head[2]]) as usize;
    let Some(bytes) = buffer.get_mut(..n) else {
        return Ok(false);
    };
    if report::read_full(reader, bytes)? < n {
        return Ok(false);
    }
    report::print_answer(writer, &reader::read(bytes))?;
    Ok(true)
}

fn main(rt: HostRuntime) -> io::Result<()> {
    let mut buffer = [0u8; 65536];
    // More cases than anybody can send: a loop needs an end.
    for _ in 0..u64::MAX {
        if !judge_one(&mut rt.stdin(), &mut rt.stdout(), &mut buffer)? {
            break;
        }
    }
    Ok(())
}
