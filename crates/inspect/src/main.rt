// The inspector: says of RISC-V ELF files what the loader would make of them.
#![tactic(auto)]

mod check;
mod demo;
mod failure;
mod files;
mod numbers;
mod plan;
mod report;
mod rights;
mod sample;
mod spaces;
mod usage;

use check::check_files;
use demo::demonstrate;
use failure::Failure;
use numbers::Number;
use plan::Extent;
use report::Report;
use std::env;
use std::env::Args;
use usage::USAGE;

// The next word as a number.
fn next_number(words: &mut Args) -> Result<u64, Failure> {
    let word = words.next().ok_or(Failure::TooFewWords)?;
    let Number(number) = word.as_str().parse()?;
    Ok(number)
}

// No word may be left.
fn finish(words: &Args) -> Result<(), Failure> {
    if words.len() > 0 {
        return Err(Failure::TooManyWords);
    }
    Ok(())
}

fn run_plan(rt: &HostRuntime, mut words: Args) -> Result<(), Failure> {
    let name = words.next().ok_or(Failure::NoFile("plan"))?;
    let bias = next_number(&mut words)?;
    finish(&words)?;
    let report = Report::new(rt, name.as_str());
    report.read_and_plan(bias)
}

fn run_bytes(rt: &HostRuntime, mut words: Args) -> Result<(), Failure> {
    let name = words.next().ok_or(Failure::NoFile("bytes"))?;
    let bias = next_number(&mut words)?;
    let address = next_number(&mut words)?;
    let length = next_number(&mut words)?;
    finish(&words)?;
    let report = Report::new(rt, name.as_str());
    report.read_and_show(bias, Extent::new(address, length)?)
}

fn run(rt: &HostRuntime) -> Result<(), Failure> {
    let mut words = env::args(rt)?;
    // The first word is the program's own name.
    let Some(command) = words.nth(1) else {
        rt.eprint(USAGE)?;
        return Err(Failure::NoCommand);
    };
    match command.as_str() {
        "demo" => demonstrate(rt),
        "check" => check_files(rt, words),
        "plan" => run_plan(rt, words),
        "bytes" => run_bytes(rt, words),
        "help" | "--help" | "-h" => Ok(rt.print(USAGE)?),
        _ => {
            rt.eprint(USAGE)?;
            Err(Failure::UnknownCommand)
        }
    }
}

fn main(rt: HostRuntime) -> Result<(), Failure> {
    run(&rt)
}
