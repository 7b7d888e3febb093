//! `msat-descriptor`: from output descriptors to addresses, texts and Scripts. This file only passes on the words, standard
//! input and standard output; `descriptor_cli` has the program.
#![tactic(auto)]

use descriptor_cli::msat_descriptor;
use ms_io::{StdSink, StdSource};
use ms_words::command_line;
use std::process::ExitCode;

fn main(rt: HostRuntime) -> ExitCode {
    let alloc = rt.alloc();
    let words = match command_line(alloc, &rt) {
        Ok(words) => words,
        Err(code) => return ExitCode::from(code),
    };
    let mut source = StdSource::new(rt.stdin());
    let mut sink = StdSink::new(rt.stdout());
    ExitCode::from(msat_descriptor(alloc, &words, &mut source, &mut sink).code())
}
