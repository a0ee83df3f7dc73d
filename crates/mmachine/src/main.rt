//! `mmachine` runs programs of the integer part of the M-Machine, whose threads are kept apart by guarded pointers.
//!
//! All that the program does is done by one call, [`mmachine`] of `mm_top`. `main` makes the real files and streams,
//! calls it and ends with its status.
#![tactic(auto)]

ghost use Rattle.std.specs.Prelude.{◌≡◌};
ghost use Rattle.mmachine.specs.Exit.{exit_code};

#[cfg(test)]
mod tests;

use mm_io::{StdFiles, StdSink, StdSource};
use mm_load::Status;
use mm_top::mmachine;
use mm_vmem::VMem;
use std::env;
use std::process::ExitCode;

/// The status of the process if the words of the command line cannot be had.
const NO_WORDS: u8 = 6;

/// The status of the process at an answer.
fn code(status: &Status) -> u8
    ensures { result ≡ exit_code status.now }
{
    match status {
        Status::Done => 0,
        Status::Usage => 1,
        Status::Refused(_) => 2,
        Status::ReadFault => 3,
        Status::WriteFault => 4,
        Status::NoMemory => 5,
    }
}

/// The words of the command line after the program's name.
fn words_of(rt: &HostRuntime) -> Option<Vec<String>> {
    env::args(rt).ok()?.skip(1).collect(rt.alloc()).ok()
}

/// Carries out the words of the command line over real files and streams, and ends with the status of the answer.
fn main(rt: HostRuntime) -> ExitCode {
    let Some(words) = words_of(&rt) else {
        return ExitCode::from(NO_WORDS);
    };
    let mut files = StdFiles::new(&rt);
    let mut input = StdSource::new(rt.stdin());
    let mut out = StdSink::new(rt.stdout());
    let mut diag = StdSink::new(rt.stderr());
    let status = mmachine::<VMem, _, _, _, _>(
        rt.alloc(),
        &words,
        &mut files,
        &mut input,
        &mut out,
        &mut diag,
    );
    ExitCode::from(code(&status))
}
