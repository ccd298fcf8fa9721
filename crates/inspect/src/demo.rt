// `inspect demo`: a whole task on a module that is part of the program.
use crate::failure::Failure;
use crate::plan::Extent;
use crate::report::Report;
use crate::sample::MODULE;
use crate::spaces::show_spaces;
use elf::opened::{Opened, open};
use elf::records::Relocation;
use image::plan::Plan;
use std::io;

fn print_relocations(rt: &impl Print, opened: &Opened) -> io::Result<()> {
    let count = opened.relocations();
    println!(rt; "its {count} relocations, each with the word it fills and its addend:")?;
    for (i, r) in (0..count).filter_map(|i| Some((i, opened.relocation(i)?))) {
        let Relocation { offset, addend, .. } = r;
        println!(rt; "  {i:>3}  {offset:#8x}  {addend:>8}")?;
    }
    Ok(())
}

// The bias at which the module is planned.
const BIAS: u64 = 0x10000;

// Plans the module and shows its pointer table.
fn plan_module(report: &Report<'_, HostRuntime>, opened: &Opened) -> Result<(), Failure> {
    let rt = report.rt;
    println!(rt; "planning it at bias {BIAS:#x}")?;
    let plan = Plan::new(opened, BIAS);
    report.plan(&plan)?;
    rt.println("the bytes around its pointer table, once it is loaded")?;
    report.bytes(&plan, Extent::new(BIAS + 0x23a8, 112)?)?;
    println!(rt;
        "planning it at bias {:#x}, which is no multiple of a page",
        BIAS + 8
    )?;
    Ok(report.plan(&Plan::new(opened, BIAS + 8))?)
}

// A byte of the module that is changed, and the value that it gets.
struct Damage {
    what: &'static str,
    at: usize,
    byte: u8,
}

const DAMAGES: [Damage; 5] = [
    Damage {
        what: "the magic number",
        at: 1,
        byte: 0,
    },
    Damage {
        what: "the machine",
        at: 18,
        byte: 62,
    },
    Damage {
        what: "the flags of header 1",
        at: 0x7c,
        byte: 7,
    },
    Damage {
        what: "the entry point",
        at: 24,
        byte: 0x45,
    },
    Damage {
        what: "the type of the last relocation",
        at: 0x1c0 + 24 * 7 + 8,
        byte: 2,
    },
];

// What the loader says of a damaged copy of the module.
fn print_damaged(rt: &HostRuntime, damage: &Damage) -> io::Result<()> {
    let mut copy = MODULE;
    if let Some(byte) = copy.get_mut(damage.at) {
        *byte = damage.byte;
    }
    let what = damage.what;
    println!(rt; "{what}:")?;
    let report = Report::new(rt, "damaged");
    report.answer(&copy)
}

pub(crate) fn demonstrate(rt: &HostRuntime) -> Result<(), Failure> {
    let length = MODULE.len();
    println!(rt; "opening the embedded module, {length} bytes")?;
    let report = Report::new(rt, "module");
    report.answer(&MODULE)?;
    if let Ok(opened) = open(&MODULE) {
        print_relocations(rt, &opened)?;
        plan_module(&report, &opened)?;
    }
    rt.println("and damaged copies of it")?;
    for damage in &DAMAGES {
        print_damaged(rt, damage)?;
    }
    Ok(show_spaces(rt)?)
}
