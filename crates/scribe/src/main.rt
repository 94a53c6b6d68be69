// Writes the book that a listing on standard input tells of, or says which line it can't take.
#![tactic(auto)]

mod book;
mod fault;
mod fields;
mod form;
mod lines;
mod quoted;

use anyhow::anyhow;
use book::book_of;
use std::io::{Read, Write};
use std::process::ExitCode;

// More than the listing of any book has.
const MOST_INPUT: usize = 1_048_576;

fn run(rt: &HostRuntime) -> anyhow::Result<()> {
    let mut input = Vec::new(rt.alloc());
    rt.stdin()
        .take(MOST_INPUT as u64 + 1)
        .read_to_end(&mut input)?;
    if input.len() > MOST_INPUT {
        return Err(anyhow!("the input is longer than 1048576 bytes"));
    }
    let book = book_of(rt.alloc(), &input)?;
    rt.stdout().write_all(&book)?;
    Ok(())
}

// What is wrong is told in one line, so no error is handed to the runtime, which would tell it again.
fn main(rt: HostRuntime) -> anyhow::Result<ExitCode> {
    match run(&rt) {
        Ok(()) => Ok(ExitCode::SUCCESS),
        Err(error) => {
            eprintln!(rt; "{error}")?;
            Ok(ExitCode::FAILURE)
        }
    }
}
