//! Runs each script that `data/names.txt` names through the library, in memory, and compares what it
//! prints with the output that is stored beside it.
#![tactic(auto)]

#[cfg(test)]
mod faults;

use std::alloc::Global;
use std::process::ExitCode;
use std::rt::Files;
use std::{fs, io, str};

/// The line of this number, counted from 0.
fn line_at(text: &str, number: usize) -> &str {
    let mut before = number;
    for line in text.lines() {
        if before == 0 {
            return line;
        }
        before = before.saturating_sub(1);
    }
    "no line"
}

/// How many lines two outputs have in common at their start.
fn common_lines(wanted: &str, printed: &str) -> usize {
    let mut count = 0usize;
    for (want, print) in wanted.lines().zip(printed.lines()) {
        if want != print {
            return count;
        }
        count = count.saturating_add(1);
    }
    count
}

/// Prints the first line in which the output of a script differs, as it is stored and as it was printed.
fn show_difference<R: Print>(rt: &R, name: &str, wanted: &str, printed: &str) -> io::Result<()> {
    let at = common_lines(wanted, printed);
    let number = at.saturating_add(1);
    println!(rt; "{name} differs in line {number}")?;
    println!(rt; "  wanted: {}", line_at(wanted, at))?;
    println!(rt; "  printed: {}", line_at(printed, at))
}

/// Whether a script prints what is stored for it. A fault is a difference too.
fn agrees<R: Files + Print + AllocGlobal>(rt: &R, alloc: Global, name: &str) -> io::Result<bool> {
    let script = fs::read(rt, format!(in alloc; "{name}.in")?)?;
    let wanted = fs::read_to_string(rt, format!(in alloc; "{name}.out")?)?;
    let mut reader = script.as_slice();
    let mut written: Vec<u8> = Vec::new(alloc);
    if let Err(fault) = ipcsh::run(alloc, &mut reader, &mut written) {
        println!(rt; "{name} ends by a fault: {fault}")?;
        return Ok(false);
    }
    let agrees = written.as_slice() == wanted.as_str().as_bytes();
    if !agrees {
        let printed = str::from_utf8(written.as_slice()).unwrap_or("");
        show_difference(rt, name, wanted.as_str(), printed)?;
    }
    Ok(agrees)
}

fn main(rt: HostRuntime) -> io::Result<ExitCode> {
    let alloc = rt.alloc();
    let names = fs::read_to_string(&rt, "names.txt")?;
    let mut agreed = 0u64;
    let mut differed = 0u64;
    for name in names.as_str().lines() {
        if agrees(&rt, alloc, name)? {
            agreed = agreed.saturating_add(1);
        } else {
            differed = differed.saturating_add(1);
        }
    }
    if differed == 0 {
        println!(rt; "{agreed} scripts agree")?;
        return Ok(ExitCode::SUCCESS);
    }
    println!(rt; "{agreed} scripts agree, {differed} differ")?;
    Ok(ExitCode::FAILURE)
}
