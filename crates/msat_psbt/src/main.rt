//! `msat-psbt`: a finalizer of PSBTs for P2WSH outputs. This file only passes on the words, standard
//! input and standard output; `psbt_lines` has the program.
#![tactic(auto)]

use ms_io::{StdSink, StdSource};
use ms_words::command_line;
use psbt_lines::program;
use std::process::ExitCode;

fn main(rt: HostRuntime) -> ExitCode {
    let alloc = rt.alloc();
    let words = match command_line(alloc, &rt) {
        Ok(words) => words,
        Err(code) => return ExitCode::from(code),
    };
    let mut source = StdSource::new(rt.stdin());
    let mut sink = StdSink::new(rt.stdout());
    ExitCode::from(program(alloc, &words, &mut source, &mut sink).code())
}
