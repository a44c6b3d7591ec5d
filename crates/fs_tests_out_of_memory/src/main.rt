//! A program that makes calls which may want memory, of values that change by them, and makes each again where memory
//! was refused. What it prints is the same whichever request for memory is refused, but for two lines that say so.
//! Other calls are made by the commands, each of whose requests `scripts/check refused-memory` refuses too.
#![tactic(auto)]

/// The answer of the call; where that is want of memory, this is said, and the call is made again.
macro_rules! twice {
    ($rt:ident, $call:expr) => {
        match $call {
            Err(Fault::Memory) => {
                say_refused($rt);
                $call
            }
            answer => answer,
        }
    };
}

mod boards;
mod desks;
mod printing;
mod questions;
mod rings;
mod verdicts;

use fs_kinds::Fault;
use std::process::ExitCode;
use std::rt::Env;
use std::sync::Wait;
use std::{env, io};

/// The parts, each by its name.
const PARTS: [&str; 4] = ["verdicts", "boards", "desks", "rings"];

/// Makes the calls of this part. `ReadFault` where there is no such part.
fn make_part<R: Print + Wait + AllocGlobal>(rt: &R, name: &str) -> Result<(), Fault> {
    match name {
        "verdicts" => verdicts::make(rt),
        "boards" => boards::make(rt),
        "desks" => desks::make(rt),
        "rings" => rings::make(rt),
        _ => Err(Fault::ReadFault),
    }
}

/// Makes the calls of all parts.
fn make_all<R: Print + Wait + AllocGlobal>(rt: &R) -> Result<(), Fault> {
    for name in PARTS {
        make_part(rt, name)?;
    }
    Ok(())
}

/// The words of the command line, the program's name first. `ReadFault` where one is no text.
fn words_of<R: Env + AllocGlobal>(rt: &R) -> Result<Vec<String>, Fault> {
    match env::args(rt) {
        Ok(words) => Ok(words.collect(rt.alloc())?),
        Err(error) if error.kind() == io::ErrorKind::OutOfMemory => Err(Fault::Memory),
        Err(_) => Err(Fault::ReadFault),
    }
}

/// Makes the calls of the part that the command line names, or of all parts where it names none.
fn make<R: Env + Print + Wait + AllocGlobal>(rt: &R) -> Result<(), Fault> {
    let words = words_of(rt)?;
    match words.get(1) {
        Some(name) => make_part(rt, name.as_str()),
        None => make_all(rt),
    }
}

/// The status 0; or 3 where memory was refused in between, or twice, and 2 at another fault.
fn main(rt: HostRuntime) -> ExitCode {
    match make(&rt) {
        Ok(()) => ExitCode::from(0),
        Err(fault) => {
            let _ = println!(rt; "stopped by {fault}");
            ExitCode::from(if fault == Fault::Memory { 3 } else { 2 })
        }
    }
}
