//! The program: its words are those after its name, a grammar is a file, an answer goes to standard
//! output, and the line of the status to standard error. It ends with the number of the status.
//!
//! If the system does not hand over the words, it writes nothing and ends with 15.
#![tactic(auto)]

use otp_tool::run_to_end;
use outside::{FileShelf, StreamSink};
use std::alloc::AllocError;
use std::env;
use std::process::ExitCode;

/// What the program ends with if there are no words.
const NO_WORDS: u8 = 15;

fn main(rt: HostRuntime) -> ExitCode {
    let alloc = rt.alloc();
    let Ok(args) = env::args(&rt) else {
        return ExitCode::from(NO_WORDS);
    };
    let collected: Result<Vec<String>, AllocError> = args.skip(1).collect(alloc);
    let Ok(words) = collected else {
        return ExitCode::from(NO_WORDS);
    };
    let mut shelf = FileShelf::new(alloc, &rt);
    let mut sink = StreamSink::new(rt.stdout());
    let mut errors = StreamSink::new(rt.stderr());
    ExitCode::from(run_to_end(alloc, &words, &mut shelf, &mut sink, &mut errors))
}
