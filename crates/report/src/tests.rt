use super::{print_answer, read_full};
use answer::{Header, Stop};
use record::{Kind, Transport, blank};
use std::io;
use std::io::{Read, Write};

// A stream that gives one byte a call, and fails behind the last where it is to.
#[derive(Drop)]
struct Scraps<'a> {
    bytes: &'a [u8],
    at: usize,
    fails: bool,
}

impl Read for Scraps<'_> {
    fn read(&mut self, buf: &mut [u8]) -> io::Result<usize> {
        if self.at < self.bytes.len() && !buf.is_empty() {
            buf[0] = self.bytes[self.at];
            self.at += 1;
            return Ok(1);
        }
        if self.fails {
            Err(io::Error::from(io::ErrorKind::ConnectionReset))
        } else {
            Ok(0)
        }
    }
}

fn in_scraps(bytes: &[u8], fails: bool) -> Scraps<'_> {
    Scraps {
        bytes,
        at: 0,
        fails,
    }
}

#[test]
fn scraps_are_one_stream(rt: HostRuntime) -> io::Result<()> {
    let mut buffer = [0u8; 16];
    let n = read_full(&mut in_scraps(b"PROXY TCP4", false), &mut buffer)?;
    assert!(rt; n == 10 && buffer[0] == b'P' && buffer[9] == b'4' && buffer[10] == 0);
    Ok(())
}

// Bytes beyond the room are not read.
#[test]
fn only_the_room_is_read(rt: HostRuntime) -> io::Result<()> {
    let mut stream = in_scraps(b"PROXY", false);
    let n = read_full(&mut stream, &mut [0; 2])?;
    assert!(rt; n == 2 && stream.at == 2);
    Ok(())
}

#[test]
fn a_failed_read_is_told(rt: HostRuntime) -> io::Result<()> {
    let told = read_full(&mut in_scraps(b"P", true), &mut [0; 2]);
    assert!(rt; told.is_err());
    Ok(())
}

// A stream that takes one byte a call, and fails once it has no room.
#[derive(Drop)]
struct Narrow {
    room: usize,
}

impl Write for Narrow {
    fn write(&mut self, buf: &[u8]) -> io::Result<usize> {
        if buf.is_empty() {
            return Ok(0);
        }
        if self.room == 0 {
            return Err(io::Error::from(io::ErrorKind::ConnectionReset));
        }
        self.room -= 1;
        Ok(1)
    }

    fn flush(&mut self) -> io::Result<()> {
        Ok(())
    }
}

// "more" and LF are five bytes.
#[test]
fn a_line_is_written_in_scraps(rt: HostRuntime) -> io::Result<()> {
    let more = Err(Stop::More { least: 15 });
    let mut stream = Narrow { room: 5 };
    print_answer(&mut stream, &more)?;
    assert!(rt; stream.room == 0);
    let told = print_answer(&mut Narrow { room: 4 }, &more);
    assert!(rt; told.is_err());
    Ok(())
}

#[test]
fn a_line_is_written(rt: HostRuntime) -> io::Result<()> {
    let mut written = Vec::new(rt.alloc());
    let header = Header {
        length: 47,
        version: 1,
        record: blank(Kind::Ip4(Transport::Stream)),
    };
    print_answer(&mut written, &Ok(header))?;
    assert!(rt; written.as_slice() == b"accepted 47 ip4-stream\n".as_slice());
    Ok(())
}
