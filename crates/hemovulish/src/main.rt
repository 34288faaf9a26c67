//! The program: makes the words, the source and the sink, runs, and ends with the status.
#![tactic(auto)]

#[cfg(test)]
mod devices;

use edge::{NoMemory, StdSink, StdSource, Words};
use merge_cli::{run, status};
use std::env::{self, FillError};
use std::io::ErrorKind;
use std::process::ExitCode;
use std::rt::Env;

/// The system's arguments without the first, which is the program's own name. The name is never
/// read, so it may have any bytes.
#[derive(Drop)]
struct AfterName<'a, R> {
    rt: &'a R,
}

impl<R: Env> Env for AfterName<'_, R> {
    fn arg(&self, i: usize, buf: &mut [u8]) -> Result<usize, FillError> {
        match i.checked_add(1) {
            Some(next) => self.rt.arg(next, buf),
            None => Err(FillError::NotPresent),
        }
    }

    fn var(&self, name: &str, buf: &mut [u8]) -> Result<usize, FillError> {
        self.rt.var(name, buf)
    }

    fn var_at(&self, i: usize, buf: &mut [u8]) -> Result<usize, FillError> {
        self.rt.var_at(i, buf)
    }
}

/// Adds the arguments behind the program's own name. Where one is not UTF-8, a single empty word,
/// which no command has, stands for all of them.
fn add_arguments<R: Env + AllocGlobal>(rt: &R, words: &mut Words) -> Result<(), NoMemory> {
    match env::args(&(AfterName { rt }, rt.alloc())) {
        Ok(arguments) => {
            for word in arguments {
                words.push(word.as_str())?;
            }
            Ok(())
        }
        Err(fault) => match fault.kind() {
            ErrorKind::OutOfMemory => Err(NoMemory),
            _ => words.push(""),
        },
    }
}

fn main(rt: HostRuntime) -> ExitCode {
    let mut words = Words::new(rt.alloc());
    if add_arguments(&rt, &mut words).is_err() {
        return ExitCode::from(status::NO_MEMORY);
    }
    let mut source = StdSource::new(rt.stdin());
    let mut sink = StdSink::new(rt.stdout());
    let outcome = run(rt.alloc(), &words, &mut source, &mut sink);
    ExitCode::from(outcome.status)
}
