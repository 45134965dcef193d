//! The program tallrun: a script's name in the words of the command line, its files in the folder, its text on the
//! standard output. docs/LANGUAGE.md has the commands and the statuses.
#![tactic(auto)]

use std::process::ExitCode;
use std::{env, io};
use tall_outside::{HostShelf, HostSink, OpenGate};
use tall_run::run;

/// The words of the command line, the program's name first.
fn words(rt: &HostRuntime) -> io::Result<Vec<String>> {
    let mut words = Vec::new(rt.alloc());
    for word in env::args(rt)? {
        words.push(word)?;
    }
    Ok(words)
}

fn main(rt: HostRuntime) -> io::Result<ExitCode> {
    // Words that are no text, or for which there is no memory, are taken as none, which is a wrong command.
    let words = words(&rt).unwrap_or_else(|_| Vec::new(rt.alloc()));
    let mut shelf = HostShelf::new(rt.clone()?);
    let mut out = HostSink::new(rt.stdout());
    let mut err = HostSink::new(rt.stderr());
    let status = run(
        &rt,
        rt.alloc(),
        &words,
        &OpenGate,
        &mut shelf,
        &mut out,
        &mut err,
    );
    Ok(ExitCode::from(status.code()))
}
