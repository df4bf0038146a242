//! Reads a scenario script from standard input and writes its transcript.
#![tactic(auto)]

use scripts::script::perform;
use std::io;
use std::io::{Read, Write};
use std::process::ExitCode;

fn main(rt: HostRuntime) -> io::Result<ExitCode> {
    let mut script = Vec::new(rt.alloc());
    rt.stdin().read_to_end(&mut script)?;
    let (transcript, ended) = perform(rt.alloc(), script.as_slice());
    rt.stdout().write_all(transcript.bytes())?;
    if let Err(fault) = ended {
        eprintln!(rt; "{fault}")?;
        return Ok(ExitCode::FAILURE);
    }
    Ok(ExitCode::SUCCESS)
}
