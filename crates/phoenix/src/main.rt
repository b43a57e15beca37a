//! The program: its words, its standard streams, and the status of the top call.
#![tactic(auto)]

use phoenix_cli::phoenix;
use px_base::{Memory, Words};
use px_io::{ReadFrom, WriteTo};
use std::env;
use std::env::Args;
use std::io::ErrorKind;
use std::process::ExitCode;

/// The exit status of bad words.
const BAD_WORDS: u8 = 2;

/// The exit status of want of memory.
const OUT_OF_MEMORY: u8 = 11;

/// The words after the program's name.
fn pushed(args: Args, words: &mut Words) -> Result<(), Memory> {
    let mut args = args;
    let _ = args.next();
    for word in args {
        words.push(word.as_str())?;
    }
    Ok(())
}

fn main(rt: HostRuntime) -> ExitCode {
    let args = match env::args(&rt) {
        Ok(args) => args,
        Err(e) if e.kind() == ErrorKind::OutOfMemory => return ExitCode::from(OUT_OF_MEMORY),
        Err(_) => {
            let _ = eprintln!(rt; "phoenix: bad words");
            return ExitCode::from(BAD_WORDS);
        }
    };
    let mut words = Words::new(rt.alloc());
    if pushed(args, &mut words).is_err() {
        return ExitCode::from(OUT_OF_MEMORY);
    }
    let mut source = ReadFrom::new(rt.stdin());
    let mut sink = WriteTo::new(rt.stdout());
    let mut faults = WriteTo::new(rt.stderr());
    let alloc = rt.alloc();
    ExitCode::from(phoenix(&rt, alloc, &words, &mut source, &mut sink, &mut faults))
}
