// Reads at most 65,536 bytes of standard input, judges just those, and writes one line: `more`, `refused 3 at 13`, or
// `accepted 47 ip4-stream`.
#![tactic(auto)]

use std::io;

fn main(rt: HostRuntime) -> io::Result<()> {
    let mut buffer = [0u8; 65536];
    let n = report::read_full(&mut rt.stdin(), &mut buffer)?;
    report::print_answer(&mut rt.stdout(), &reader::read(&buffer[..n]))
}
