//! A script, parsed so many turns. It is the program that bench/parse.py times.
//!
//! The words are a file's name and the number of turns. It prints what the last turn found: how many statements and
//! functions the script has, or why it is none.
#![tactic(auto)]

use std::io::ErrorKind;
use std::{env, fs, io};
use tall_parse::parse;

fn main(rt: HostRuntime) -> io::Result<()> {
    let mut words = Vec::new(rt.alloc());
    for word in env::args(&rt)? {
        words.push(word)?;
    }
    let (name, turns) = match words.as_slice() {
        [_, name, turns] => (name, turns.as_str().parse::<u32>().unwrap_or(0)),
        _ => return Err(io::Error::from(ErrorKind::InvalidInput)),
    };
    let text = fs::read(&rt, name.as_str())?;
    let mut found = Ok((0, 0));
    for _turn in 0..turns {
        found = match parse(rt.alloc(), text.as_slice()) {
            Ok(script) => Ok((script.statements.len(), script.functions.len())),
            Err(fault) => Err(fault),
        };
    }
    match found {
        Ok((statements, functions)) => {
            println!(rt; "{statements} statements, {functions} functions")?;
        }
        Err(fault) => println!(rt; "{fault:?}")?,
    }
    Ok(())
}
