//! The program `whview`: hands the words of the command line, standard input and standard output to [`whview::run`], which
//! counts the reads and writes that fail.
#![tactic(auto)]

use std::alloc::AllocError;
use std::io::ErrorKind;
use std::process::ExitCode;
use std::rt::Env;
use std::{env, io};
use whview::{CountedStream, run, want_of_memory, words_without_text};

/// The words of the command line after the program's name. It fails where one of them is not UTF-8 (`InvalidData`), and
/// where memory is refused.
fn handed_words<E: Env + AllocGlobal>(rt: &E) -> io::Result<Vec<String>> {
    let mut words = Vec::new(rt.alloc());
    for word in env::args(rt)?.skip(1) {
        words.push(word)?;
    }
    Ok(words)
}

/// Hands the words, standard input and standard output to `run`, and ends with what it answers.
fn main(rt: HostRuntime) -> ExitCode {
    let mut input = CountedStream::new(rt.stdin());
    let mut out = CountedStream::new(rt.stdout());
    let words = match handed_words(&rt) {
        Ok(words) => words,
        Err(error) if error.kind() == ErrorKind::InvalidData => {
            return ExitCode::from(words_without_text(&mut out));
        }
        Err(_) => return ExitCode::from(want_of_memory(&mut out)),
    };
    let lent: Result<Vec<&str>, AllocError> = words
        .iter()
        .map(|word| word.as_str())
        .collect(rt.alloc());
    match lent {
        Ok(lent) => ExitCode::from(run(&rt, rt.alloc(), &lent, &mut input, &mut out)),
        Err(AllocError) => ExitCode::from(want_of_memory(&mut out)),
    }
}
