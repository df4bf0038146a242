//! Reads cases from standard input, one to a line, and prints what reading answers of each.
//! A case is `NAME: NODES / FUNCTIONS / APPS`, lists of groups of hexadecimal digits. In a group a dot stands for zeros up to
//! the next multiple of eight bytes. `GROUP*N` is a group N times, and `GROUP*N+STEP` adds the step to it each time, as one
//! large number.
#![tactic(auto)]

ghost use Rattle.std.specs.Prelude.{◌<◌, length, IfSome};

use anyhow::anyhow;
use layout::lists::OwnedLists;
use levels::refusal::Fault;
use reading::program::Program;
use reading::program::read::read_program;
use std::alloc::{AllocError, Global};
use std::io::{BufRead, BufReader};

// Small letters only, which `to_digit` does not ask.
fn digit(c: u8) -> Option<u8>
    ensures { IfSome result (λ d. d < 16) }
{
    match c {
        b'0'..=b'9' => Some(c - b'0'),
        b'a'..=b'f' => Some(c - b'a' + 10),
        _ => None,
    }
}

// Zeros up to the next multiple of eight bytes.
fn fill(list: &mut Vec<u8>) -> Result<(), AllocError> {
    for _ in list.len() % 8..8 {
        list.push(0)?;
    }
    Ok(())
}

// The bytes that pairs of hexadecimal digits and dots stand for.
fn group(heap: Global, text: &str) -> anyhow::Result<Vec<u8>> {
    let mut list = Vec::new(heap);
    let mut high = None;
    for c in text.bytes() {
        match (digit(c), high) {
            (None, _) if c == b'.' => fill(&mut list)?,
            (None, _) => return Err(anyhow!("no hexadecimal digit")),
            (Some(d), None) => high = Some(d),
            (Some(d), Some(h)) => {
                list.push(h << 4 | d)?;
                high = None;
            }
        }
    }
    Ok(list)
}

// Adds a number to another of as many bytes, the highest first.
// Byte by byte with a carry: numbers here are of any length, for which no type of the library stands.
fn add(number: &mut [u8], step: &[u8]) {
    let mut carry = 0u16;
    // As many bytes of each, and both from the end: a `zip` turned round would first skip what the longer has more.
    let n = number.len().min(step.len());
    for (byte, more) in number[..n].iter_mut().rev().zip(step[..n].iter().rev()) {
        let sum = (*byte as u16 + *more as u16).wrapping_add(carry);
        *byte = (sum % 256) as u8;
        carry = sum / 256;
    }
}

fn repeat(
    list: &mut Vec<u8>,
    mut entry: Vec<u8>,
    times: u32,
    step: Vec<u8>,
) -> Result<(), AllocError> {
    for _ in 0..times {
        list.extend_from_slice(&entry)?;
        add(&mut entry, &step);
    }
    Ok(())
}

fn put(heap: Global, list: &mut Vec<u8>, word: &str) -> anyhow::Result<()> {
    let (entry, rest) = word.split_once('*').unwrap_or((word, "1"));
    let (times, step) = rest.split_once('+').unwrap_or((rest, ""));
    let entry = group(heap, entry)?;
    let times = times.parse::<u32>()?;
    repeat(list, entry, times, group(heap, step)?)?;
    Ok(())
}

fn list(heap: Global, words: &str) -> anyhow::Result<Vec<u8>> {
    let mut bytes = Vec::new(heap);
    for word in words.split(' ') {
        put(heap, &mut bytes, word)?;
    }
    Ok(bytes)
}

fn read_case(heap: Global, text: &str) -> anyhow::Result<OwnedLists> {
    let (nodes, rest) = text.split_once('/').ok_or_else(|| anyhow!("no functions"))?;
    let (functions, apps) = rest.split_once('/').ok_or_else(|| anyhow!("no apps"))?;
    Ok(OwnedLists {
        nodes: list(heap, nodes)?,
        functions: list(heap, functions)?,
        apps: list(heap, apps)?,
    })
}

// Whether writing the program gives the case's bytes back.
fn written_back(heap: Global, program: &Program, case: &OwnedLists) -> Result<bool, AllocError> {
    let written = program.write(heap)?;
    Ok(written == *case)
}

fn show(rt: &HostRuntime, name: &str, case: &OwnedLists) -> anyhow::Result<()> {
    let heap = rt.alloc();
    match read_program(heap, case.view()) {
        Err(fault) => {
            let refusal = fault.refusal();
            println!(rt; "{name}: {refusal}")?;
        }
        Ok(program) => {
            let n = program.node_count();
            let back = if written_back(heap, &program, case)? {
                "written back"
            } else {
                "written otherwise"
            };
            println!(rt; "{name}: read {n} nodes, {back}")?;
        }
    }
    Ok(())
}

fn run(rt: &HostRuntime) -> anyhow::Result<()> {
    let heap = rt.alloc();
    for line in BufReader::new(heap, rt.stdin())?.lines(heap) {
        let line = line?;
        if let Some((name, text)) = line.split_once(':') {
            show(rt, name, &read_case(heap, text)?)?;
        }
    }
    Ok(())
}

fn main(rt: HostRuntime) -> anyhow::Result<()> {
    run(&rt)
}
