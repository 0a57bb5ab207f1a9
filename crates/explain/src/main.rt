//! Tells the first mistake in a script, from standard input to standard output.
#![tactic(auto)]

mod answer;

ghost use Rattle.explain.specs.Endings.{status_of};

use answer::{Ending, explain, status};
use standard_streams::{StdSink, StdSource};
use std::alloc::AllocError;
use std::env;
use std::io::{self, Stdin, Stdout};
use std::process::ExitCode;

// Whether the command line has no words besides the program's own name.
fn is_asked(rt: &HostRuntime) -> Result<bool, AllocError> {
    match env::args(rt) {
        Ok(args) => Ok(args.skip(1).next().is_none()),
        Err(error) if error.kind() == io::ErrorKind::OutOfMemory => Err(AllocError),
        Err(_) => Ok(false),
    }
}

// Tells on standard error that a standard stream failed, and why, where that is known.
fn tell_failure(rt: &HostRuntime, what: &str, failure: Option<io::Error>) {
    let _ = match failure {
        Some(error) => eprintln!(rt; "explain: {what}: {error}"),
        None => eprintln!(rt; "explain: {what}"),
    };
}

// Tells on standard error what ended the call early.
fn tell_ending(
    rt: &HostRuntime,
    ending: Ending,
    source: &StdSource<Stdin>,
    sink: &StdSink<Stdout>,
) {
    match ending {
        Ending::ReadFault => tell_failure(rt, "cannot read standard input", source.failure()),
        Ending::WriteFault => tell_failure(rt, "cannot write standard output", sink.failure()),
        Ending::OutOfMemory => tell_failure(rt, "there is no memory", None),
        Ending::NoMistake | Ending::Told | Ending::BadWords | Ending::TooLong => {}
    }
}

fn main(rt: HostRuntime) -> ExitCode {
    let mut source = StdSource::new(rt.stdin());
    let mut sink = StdSink::new(rt.stdout());
    let ending = match is_asked(&rt) {
        Ok(asked) => explain(rt.alloc(), asked, &mut source, &mut sink),
        Err(_) => Ending::OutOfMemory,
    };
    tell_ending(&rt, ending, &source, &sink);
    ExitCode::from(status(ending))
}
