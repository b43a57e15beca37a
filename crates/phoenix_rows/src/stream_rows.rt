//! Rows over readers and writers of std that fail at one call, and go on well after it.

use phoenix_cli::phoenix;
use px_base::{Memory, Words};
use px_io::{ReadFrom, SureSink, SureSource, WriteTo};
use std::alloc::Global;
use std::io;
use std::io::{Error, ErrorKind, Read, Write};
use std::process::Abort;
use std::test::Fail;

/// An edge list of 16 bytes.
const EDGES: &str = "1 2\n1 3\n3 2\n2 4\n";

/// What `run bfs 1` writes for it.
const ANSWER: &str = "1 0\n2 1\n3 1\n4 2\n";

/// A reader that gives five bytes a call. The call of this number fails.
#[derive(Drop)]
struct Stumbling {
    bytes: &'static [u8],
    failing: u64,
}

impl Read for Stumbling {
    fn read(&mut self, buf: &mut [u8]) -> io::Result<usize> {
        self.failing = self.failing.wrapping_sub(1);
        if self.failing == 0 {
            return Err(Error::from(ErrorKind::Other));
        }
        let count = self.bytes.len().min(buf.len()).min(5);
        buf[..count].copy_from_slice(&self.bytes[..count]);
        self.bytes = &self.bytes[count..];
        Ok(count)
    }
}

/// What goes wrong in a call of a writer.
#[derive(Clone, Copy)]
enum Mishap {
    /// The write fails.
    Fails,
    /// Nothing is taken.
    TakesNothing,
    /// What was taken can't be flushed.
    Holds,
}

/// A writer that takes four bytes a call. In the call of this number something goes wrong.
#[derive(Drop)]
struct Faltering {
    bytes: Vec<u8>,
    failing: u64,
    mishap: Mishap,
}

impl Write for Faltering {
    fn write(&mut self, buf: &[u8]) -> io::Result<usize> {
        self.failing = self.failing.wrapping_sub(1);
        match self.mishap {
            Mishap::Fails if self.failing == 0 => return Err(Error::from(ErrorKind::Other)),
            Mishap::TakesNothing if self.failing == 0 => return Ok(0),
            _ => {}
        }
        let count = buf.len().min(4);
        self.bytes.extend_from_slice(&buf[..count])?;
        Ok(count)
    }

    fn flush(&mut self) -> io::Result<()> {
        match self.mishap {
            Mishap::Holds if self.failing == 0 => Err(Error::from(ErrorKind::Other)),
            _ => Ok(()),
        }
    }
}

/// The words `run bfs 1`.
fn run_words(alloc: Global) -> Result<Words, Memory> {
    let mut words = Words::new(alloc);
    words.push("run")?;
    words.push("bfs")?;
    words.push("1")?;
    Ok(words)
}

#[test]
fn hands_on_what_a_reader_fails(rt: HostRuntime) -> Result<(), Fail> {
    let alloc = rt.alloc();
    let words = run_words(alloc)?;
    // The bytes come in four calls, and the fifth finds the end. No sixth is made.
    for failing in 1..7u64 {
        let mut source = ReadFrom::new(Stumbling {
            bytes: EDGES.as_bytes(),
            failing,
        });
        let mut sink = SureSink::new(alloc, 4096);
        let mut faults = SureSink::new(alloc, 4096);
        let status = phoenix(&rt, alloc, &words, &mut source, &mut sink, &mut faults);
        let (wanted, answer, fault) = if failing <= 5 {
            (6, "", "phoenix: read fault\n")
        } else {
            (0, ANSWER, "")
        };
        assert_eq!(rt; status, wanted, "at call {failing}");
        assert_eq!(rt; sink.bytes(), answer.as_bytes(), "at call {failing}");
        assert_eq!(rt; faults.bytes(), fault.as_bytes(), "at call {failing}");
    }
    Ok(())
}

#[test]
fn hands_on_what_a_writer_fails(rt: HostRuntime) -> Result<(), Fail> {
    let alloc = rt.alloc();
    let words = run_words(alloc)?;
    let rows = [
        (1, Mishap::Fails, 7, ""),
        (1, Mishap::TakesNothing, 7, ""),
        (1, Mishap::Holds, 7, "1 0\n"),
        (2, Mishap::Fails, 7, "1 0\n"),
        (2, Mishap::TakesNothing, 7, "1 0\n"),
        (2, Mishap::Holds, 7, "1 0\n2 1\n"),
        (4, Mishap::Fails, 7, "1 0\n2 1\n3 1\n"),
        (4, Mishap::TakesNothing, 7, "1 0\n2 1\n3 1\n"),
        (4, Mishap::Holds, 7, ANSWER),
        (5, Mishap::Fails, 0, ANSWER),
    ];
    for (failing, mishap, wanted, written) in rows {
        let mut source = SureSource::new(EDGES.as_bytes().to_vec(alloc)?, 4096);
        let mut writer = Faltering {
            bytes: Vec::new(alloc),
            failing,
            mishap,
        };
        let mut faults = SureSink::new(alloc, 4096);
        let status = phoenix(
            &rt,
            alloc,
            &words,
            &mut source,
            &mut WriteTo::new(&mut writer),
            &mut faults,
        );
        let fault = if wanted == 7 {
            "phoenix: write fault\n"
        } else {
            ""
        };
        assert_eq!(rt; status, wanted, "at {written:?}");
        assert_eq!(rt;
            writer.bytes.as_slice(),
            written.as_bytes(),
            "at {written:?}"
        );
        assert_eq!(rt; faults.bytes(), fault.as_bytes(), "at {written:?}");
    }
    Ok(())
}
