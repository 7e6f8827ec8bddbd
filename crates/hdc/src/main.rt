//! The program `hdc`: serves the words of its command line over files and standard output.
#![tactic(auto)]

use hdc_base::{FileStore, StdSink};
use hdc_top::{WANT, serve};
use std::env;
use std::io::ErrorKind;
use std::process::ExitCode;

/// The status where the words of the command line could not be had, for another cause than memory.
const NO_WORDS: u8 = 11;

fn main(rt: HostRuntime) -> ExitCode {
    let words = match env::args(&rt) {
        Ok(words) => words,
        Err(error) if error.kind() == ErrorKind::OutOfMemory => return ExitCode::from(WANT),
        Err(_) => return ExitCode::from(NO_WORDS),
    };
    let Ok(words) = words.collect::<Vec<String>>(rt.alloc()) else {
        return ExitCode::from(WANT);
    };
    let mut files = FileStore::new(&rt);
    let mut output = StdSink::new(&rt);
    ExitCode::from(serve(rt.alloc(), words.as_slice(), &mut files, &mut output))
}
