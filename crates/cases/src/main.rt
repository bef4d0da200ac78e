//! Runs each case of its input through the program's own way from an input to its figures, and prints the verdict.
//!
//! A case begins with `= name`. Then `|text` is a line of the case with its line feed, `+text` is text without one,
//! and `*NNNNNNN|text` is a line so many times. Texts may have any bytes; what has no line feed is no line of the script.
#![tactic(auto)]

use closing::days::{Day, margin_day};
use std::alloc::AllocError;
use std::io;
use std::io::Read;
use std::str::from_utf8;
use terms::words::{Currency, Side};

fn main(rt: HostRuntime) -> io::Result<()> {
    let mut script = Vec::new(rt.alloc());
    rt.stdin().read_to_end(&mut script)?;
    let mut input = Vec::new(rt.alloc());
    let mut begun = false;
    for line in script.split_inclusive(|byte| *byte == b'\n') {
        let Some(line) = line.strip_suffix(b"\n") else {
            break;
        };
        if line.starts_with(b"= ") {
            if begun {
                judge(&rt, input.as_slice())?;
            }
            input.clear();
            begun = true;
            name(&rt, line)?;
        } else {
            add(&mut input, line)?;
        }
    }
    judge(&rt, input.as_slice())
}

/// Prints the name of a case, where it is text.
fn name(rt: &HostRuntime, line: &[u8]) -> io::Result<()> {
    match from_utf8(line) {
        Ok(text) => println!(rt; "{text}"),
        Err(_) => Ok(()),
    }
}

/// The number that seven digits write.
fn times(digits: &[u8]) -> u32 {
    digits.iter().fold(0u32, |n, digit| {
        n.wrapping_mul(10)
            .wrapping_add(u32::from(digit.wrapping_sub(b'0')))
    })
}

/// How many lines a line of the script stands for, and their text, which is not empty.
fn repeated(line: &[u8]) -> Option<(u32, &[u8])> {
    let rest = line.strip_prefix(b"*")?;
    if rest.len() < 9 {
        return None;
    }
    Some((times(&rest[..7]), &rest[8..]))
}

/// Adds what a line of the script stands for.
fn add(input: &mut Vec<u8>, line: &[u8]) -> Result<(), AllocError> {
    if let Some(text) = line.strip_prefix(b"|") {
        add_lines(input, text, 1)
    } else if let Some(text) = line.strip_prefix(b"+") {
        input.extend_from_slice(text)
    } else if let Some((times, text)) = repeated(line) {
        add_lines(input, text, times)
    } else {
        Ok(())
    }
}

/// Adds a line so many times.
fn add_lines(input: &mut Vec<u8>, text: &[u8], times: u32) -> Result<(), AllocError> {
    for _ in 0..times {
        input.extend_from_slice(text)?;
        input.push(b'\n')?;
    }
    Ok(())
}

/// Prints what the program would say to an input.
fn judge(rt: &HostRuntime, input: &[u8]) -> io::Result<()> {
    match margin_day(input) {
        Ok(day) => accept(rt, &day),
        Err(stop) => println!(rt; "{stop}"),
    }
}

/// Prints how many accounts there are, and the sides' requirements.
fn accept(rt: &HostRuntime, day: &Day) -> io::Result<()> {
    let accounts = day.statements.as_slice().len();
    let client = day.statements.requirement(Side::Client, Currency::Hkd);
    let rmb = day.statements.requirement(Side::Client, Currency::Rmb);
    let house = day.statements.requirement(Side::House, Currency::Hkd);
    println!(rt; "accepted: {accounts} accounts, client {client} HKD {rmb} RMB, house {house} HKD")
}
