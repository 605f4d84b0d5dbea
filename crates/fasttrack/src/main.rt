//! `fasttrack`: runs RV32IM programs.
#![tactic(auto)]

use fasttrack_program::{Histories, fasttrack_main, status};
use host_io::{RealFiles, RealInput, RealNotes, RealOutput};
use std::io::{self, ErrorKind};
use std::process::ExitCode;
use worker_gate::Open;

/// The status where the words can't be had from the system, which no answer has.
const NO_WORDS: u8 = 254;

fn main(rt: HostRuntime) -> ExitCode {
    let Ok(words) = words_of(&rt) else {
        return ExitCode::from(NO_WORDS);
    };
    let answer = fasttrack_main(
        &rt,
        rt.alloc(),
        words.as_slice(),
        &mut RealFiles::new(&rt),
        &mut RealInput::new(&rt),
        &mut RealOutput::new(&rt),
        &mut RealNotes::new(&rt),
        &Open,
        &mut Histories::new(rt.alloc()),
    );
    ExitCode::from(status(&answer))
}

/// The words behind the program's own name. A word that isn't UTF-8 makes them no call of the program, as no words do.
fn words_of(rt: &HostRuntime) -> io::Result<Vec<String>> {
    match std::env::args(rt) {
        Ok(words) => Ok(words.skip(1).collect(rt.alloc())?),
        Err(error) if error.kind() == ErrorKind::InvalidData => Ok(Vec::new(rt.alloc())),
        Err(error) => Err(error),
    }
}
