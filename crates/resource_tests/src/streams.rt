//! Readers and writers that fail, take or give a byte at a time, or have no end.

use crate::asking::again;
use crate::scripts::{lines, outcome, script};
use program_io::Fault;
use service::run_script;
use std::io;
use std::io::{Read, Write};
use std::test::Fail;

/// Accepts a byte at each write as long as there is room, and then accepts none or fails.
#[derive(Drop)]
struct Narrow {
    taken: [u8; 5],
    count: usize,
    fails: bool,
}

impl Write for Narrow {
    fn write(&mut self, buf: &[u8]) -> io::Result<usize> {
        match (self.taken.get_mut(self.count), buf) {
            (Some(place), [first, ..]) => {
                *place = *first;
                self.count = self.count.saturating_add(1);
                Ok(1)
            }
            _ if self.fails => Err(io::Error::from(io::ErrorKind::BrokenPipe)),
            _ => Ok(0),
        }
    }

    fn flush(&mut self) -> io::Result<()> {
        Ok(())
    }
}

#[test]
fn stops_where_the_writer_takes_no_more(rt: HostRuntime) -> Result<(), Fail> {
    let alloc = rt.alloc();
    let text = again(|| script(alloc))?;
    for fails in [true, false] {
        let mut writer = Narrow {
            taken: [0; 5],
            count: 0,
            fails,
        };
        let mut answer = run_script(alloc, &mut text.as_bytes(), &mut writer);
        if matches!(&answer, Err(Fault::Memory)) {
            answer = run_script(alloc, &mut text.as_bytes(), &mut writer);
        }
        assert_eq!(rt; answer, Err(Fault::Write), "where it fails: {fails}");
        assert_eq!(rt; &writer.taken, b"key 1");
    }
    Ok(())
}

/// Returns a byte at each read, and fails at the last of a number of reads.
#[derive(Drop)]
struct Slow<'a> {
    left: &'a [u8],
    reads: usize,
}

impl Read for Slow<'_> {
    fn read(&mut self, buf: &mut [u8]) -> io::Result<usize> {
        self.reads = self.reads.saturating_sub(1);
        if self.reads == 0 {
            return Err(io::Error::from(io::ErrorKind::TimedOut));
        }
        match (self.left, buf) {
            ([next, left @ ..], [first, ..]) => {
                *first = *next;
                self.left = left;
                Ok(1)
            }
            _ => Ok(0),
        }
    }
}

// The end of the script is one more read, after those of its bytes.
#[test]
fn reads_a_byte_at_a_time(rt: HostRuntime) -> Result<(), Fail> {
    let alloc = rt.alloc();
    let text = again(|| script(alloc))?;
    let wanted = again(|| lines(alloc))?;
    let cases = [
        (2, Err(Fault::Read), ""),
        (text.len().saturating_add(1), Err(Fault::Read), ""),
        (text.len().saturating_add(2), Ok(()), wanted.as_str()),
    ];
    for (reads, ending, output) in cases {
        let (answer, written) = again(|| {
            let left = text.as_bytes();
            outcome(alloc, &mut Slow { left, reads })
        })?;
        assert_eq!(rt; answer, ending, "with {reads} reads");
        assert_eq!(rt; written.as_slice(), output.as_bytes());
    }
    Ok(())
}

/// Returns a space at each read, without an end.
#[derive(Drop)]
struct Endless {
    reads: u64,
}

impl Read for Endless {
    fn read(&mut self, buf: &mut [u8]) -> io::Result<usize> {
        self.reads = self.reads.saturating_add(1);
        match buf {
            [] => Ok(0),
            [first, ..] => {
                *first = b' ';
                Ok(1)
            }
        }
    }
}

#[test]
fn gives_up_on_a_reader_without_an_end(rt: HostRuntime) -> Result<(), Fail> {
    let alloc = rt.alloc();
    let mut reader = Endless { reads: 0 };
    let ended = match outcome(alloc, &mut reader) {
        Err(_) => {
            reader = Endless { reads: 0 };
            outcome(alloc, &mut reader)?
        }
        Ok(ended) => ended,
    };
    assert_eq!(rt; ended.0, Err(Fault::Read));
    assert_eq!(rt; reader.reads, 16_777_216);
    assert!(rt; ended.1.is_empty());
    Ok(())
}
