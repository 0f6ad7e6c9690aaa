//! The program: the words of its command line, standard input and standard output.
#![tactic(auto)]

use base_types::{Memory, Names, Text};
use io_edge::{NoOutage, StdSink, StdSource};
use std::env;
use std::io::ErrorKind;
use std::mem::forget;
use std::process::ExitCode;
use wf_program::{Ended, Status, argo};

/// The words behind the program's name. An argument that is not UTF-8 is a word of no command, and then there are no words.
fn words(rt: &HostRuntime) -> Result<Names, Memory> {
    let mut words = Names::new(rt.alloc());
    let args = match env::args(rt) {
        Ok(args) => args,
        Err(error) if error.kind() == ErrorKind::OutOfMemory => return Err(Memory),
        Err(_) => return Ok(words),
    };
    for arg in args.skip(1) {
        words.push(Text::from_string(arg)?)?;
    }
    Ok(words)
}

/// All texts are the top call's: nothing else is written. Without memory for the words nothing is.
fn main(rt: HostRuntime) -> ExitCode {
    let status = match words(&rt) {
        Ok(words) => {
            let mut source = StdSource::new(rt.stdin());
            let mut sink = StdSink::new(rt.stdout());
            let mut ended = Ended::new();
            let status = argo(
                rt.alloc(),
                words.as_slice(),
                &mut source,
                &mut sink,
                NoOutage,
                &mut ended,
            );
            // The process ends, and its memory with it: the store is not taken apart first.
            forget(ended);
            status
        }
        Err(Memory) => Status::Memory,
    };
    ExitCode::from(status.code())
}
