// `inspect check`: whether the loader takes a file.
ghost use Rattle.std.specs.Prelude.{◌-◌};
ghost use Rattle.std.specs.Iterator.{at_most};

use crate::failure::Failure;
use crate::report::Report;
use crate::rights::Rights;
use elf::kinds::{FileType, HeaderType, Tag};
use elf::layout::{ELF64, PAGE};
use elf::opened::{Opened, open};
use elf::records::{FileHeader, ProgramHeader};
use image::rights::rights_of;
use std::env::Args;
use std::io;
use std::ops::Range;

// The dynamic tags that give the sizes of relocation tables.
const TABLE_SIZES: [Tag; 4] = [Tag::JmpRelSize, Tag::RelaSize, Tag::RelSize, Tag::RelrSize];

// The load headers of a file, each with its number among all headers.
#[derive(Drop)]
struct LoadHeaders<'a> {
    opened: &'a Opened<'a>,
    numbers: Range<u32>,
}

impl<'a> LoadHeaders<'a> {
    fn of(opened: &'a Opened<'a>) -> LoadHeaders<'a> {
        LoadHeaders {
            opened,
            numbers: 0..u32::from(ELF64.limits.headers),
        }
    }
}

impl Iterator for LoadHeaders<'_> {
    type Item = (u32, ProgramHeader);

    ghost remaining = { λ s. at_most (s.numbers.end - s.numbers.start) };

    fn next(&mut self) -> Option<(u32, ProgramHeader)> {
        let opened = self.opened;
        self.numbers.find_map(|i| {
            let header = opened.header(i)?;
            header.is(HeaderType::Load).then_some((i, header))
        })
    }
}

// One line for a load segment.
fn print_segment(rt: &impl Print, number: u32, h: &ProgramHeader) -> io::Result<()> {
    let ProgramHeader {
        flags,
        vaddr,
        filesz,
        memsz,
        ..
    } = *h;
    let first = vaddr / PAGE;
    let last = vaddr.saturating_add(memsz).saturating_sub(1) / PAGE;
    let rights = Rights(rights_of(flags));
    println!(rt; "  {number:>6}  {first:#12x}  {last:#12x}  {rights}     {filesz:>10}  {memsz:>12}")
}

fn print_segments(rt: &impl Print, opened: &Opened) -> io::Result<()> {
    rt.println("  header    first page     last page  rights  file bytes  memory bytes")?;
    for (number, header) in LoadHeaders::of(opened) {
        print_segment(rt, number, &header)?;
    }
    Ok(())
}

// Whether a static file has relocations, which the loader does not apply.
fn has_ignored_relocations(opened: &Opened) -> bool {
    opened
        .file_header()
        .is_some_and(|header| header.is(FileType::Static))
        && (0..65_536)
            .map_while(|i| opened.dynamic_entry(i))
            .take_while(|entry| !entry.is(Tag::Null))
            .filter(|entry| entry.value != 0)
            .any(|entry| TABLE_SIZES.iter().any(|tag| entry.is(*tag)))
}

impl<R: Print> Report<'_, R> {
    fn opened(&self, opened: &Opened) -> io::Result<()> {
        let Some(FileHeader { kind, entry, .. }) = opened.file_header() else {
            return Ok(());
        };
        let name = self.name;
        let segments = LoadHeaders::of(opened).count();
        let relocations = opened.relocations();
        println!(self.rt;
            "{name}: opened type={kind} entry={entry:#x} segments={segments} relocations={relocations}"
        )?;
        print_segments(self.rt, opened)
    }
}

impl<R: Print + Eprint> Report<'_, R> {
    // What opening answers, with a warning where the loader leaves something undone.
    pub(crate) fn answer(&self, file: &[u8]) -> io::Result<()> {
        let opened = match open(file) {
            Ok(opened) => opened,
            Err(fault) => return self.refused(&fault),
        };
        self.opened(&opened)?;
        if has_ignored_relocations(&opened) {
            let name = self.name;
            eprintln!(self.rt;
                "inspect: {name}: warning: a static file with relocations: the loader does not apply them"
            )?;
        }
        Ok(())
    }
}

impl Report<'_, HostRuntime> {
    fn check(&self) -> Result<(), Failure> {
        let bytes = self.read()?;
        Ok(self.answer(bytes.as_slice())?)
    }
}

// One answer or one message for each file.
pub(crate) fn check_files(rt: &HostRuntime, names: Args) -> Result<(), Failure> {
    if names.len() == 0 {
        return Err(Failure::NoFile("check"));
    }
    let mut answer = Ok(());
    for name in names {
        let report = Report::new(rt, name.as_str());
        match report.check() {
            Ok(()) => {}
            Err(Failure::Unreadable) => answer = Err(Failure::SomeUnreadable),
            Err(failure) => return Err(failure),
        }
    }
    answer
}
