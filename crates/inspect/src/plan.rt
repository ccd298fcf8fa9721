// `inspect plan` and `inspect bytes`: what will stand in memory, and why.
ghost use Rattle.std.specs.Prelude.{◌≡◌, ◌<◌, ◌≤◌, length, MatchResult};
ghost use Rattle.std.specs.Iterator.{at_most};

use crate::failure::Failure;
use crate::report::Report;
use crate::rights::Rights;
use elf::layout::PAGE;
use elf::opened::Opened;
use faults::fault::Fault;
use image::origin::Origin;
use image::plan::Plan;
use image::ranges::PageRange;
use image::segments::{Segment, Segments};
use std::{fmt, io};

fn print_segment(rt: &impl Print, s: &Segment) -> io::Result<()> {
    let Segment {
        address,
        memsz,
        offset,
        filesz,
        ..
    } = *s;
    let PageRange { first, count } = s.pages;
    let from = first as u64 * PAGE;
    let to = from + count as u64 * PAGE;
    let rights = Rights(s.rights);
    println!(rt;
        "  {from:#12x}  {to:#12x}  {count:>6}  {rights}     {address:#12x}  {memsz:>8}  {offset:#10x}  {filesz:>8}"
    )
}

// What is planned for a file.
#[derive(Drop)]
struct Planned {
    entry: u64,
    pages: u32,
    segments: Segments,
}

impl Planned {
    fn of(plan: &Plan) -> Result<Planned, Fault> {
        Ok(Planned {
            entry: plan.entry()?,
            pages: plan.pages()?,
            segments: plan.segments()?,
        })
    }
}

impl<R: Print> Report<'_, R> {
    fn planned(&self, planned: &Planned) -> io::Result<()> {
        let name = self.name;
        let Planned {
            entry,
            pages,
            segments,
        } = planned;
        println!(self.rt; "{name}: planned entry={entry:#x} pages={pages}")?;
        self.rt.println(
            "    pages from            to   count  rights   memory from     bytes   file from     bytes",
        )?;
        for segment in segments.as_slice() {
            print_segment(self.rt, segment)?;
        }
        Ok(())
    }

    pub(crate) fn plan(&self, plan: &Plan) -> io::Result<()> {
        match Planned::of(plan) {
            Ok(planned) => self.planned(&planned),
            Err(fault) => self.refused(&fault),
        }
    }
}

// Where a byte comes from, if its page is mapped.
#[derive(Clone, Copy)]
struct Source(Option<Origin>);

impl fmt::Display for Source {
    fn fmt<W: fmt::Write>(&self, f: &mut fmt::Formatter<W>) -> fmt::Result {
        match self.0 {
            Some(Origin::File(offset)) => write!(f, "file {offset:#x}"),
            Some(Origin::Word(number)) => write!(f, "relocation {number}"),
            Some(Origin::Inside) => f.write_str("zero, in the segment"),
            Some(Origin::Around) => f.write_str("zero, around the segment"),
            None => f.write_str("not mapped"),
        }
    }
}

// How many bytes stand on a line.
const WIDTH: usize = 16;

// The bytes of one line, all of one run, and where the first comes from.
#[derive(Clone, Copy)]
struct Line<'a> {
    address: u64,
    bytes: &'a [u8],
    source: Source,
}

impl fmt::Display for Line<'_> {
    fn fmt<W: fmt::Write>(&self, f: &mut fmt::Formatter<W>) -> fmt::Result {
        let Line {
            address,
            bytes,
            source,
        } = *self;
        write!(f, "  {address:#12x} ")?;
        for byte in bytes {
            write!(f, " {byte:02x}")?;
        }
        let gap = 3 * WIDTH.saturating_sub(bytes.len());
        write!(f, "{:gap$}  {source}", "")
    }
}

// Whether two bytes that follow one another are of one run, by their origins.
fn continues(before: &Option<Origin>, after: &Option<Origin>) -> bool {
    match (*before, *after) {
        (Some(Origin::File(a)), Some(Origin::File(b))) => a.checked_add(1) == Some(b),
        (before, after) => before == after,
    }
}

// The bytes from an address on, and where each comes from, line by line: two buffers, for a plan fills one of each.
#[derive(Drop)]
struct Lines<'a> {
    address: u64,
    bytes: &'a [u8],
    origins: &'a [Option<Origin>],
}

impl<'a> Iterator for Lines<'a> {
    type Item = Line<'a>;

    ghost remaining = { λ s. at_most (length s.origins.now) };

    fn next(&mut self) -> Option<Line<'a>> {
        let near = self.origins.chunks(WIDTH).next()?;
        let run = near.chunk_by(continues).next()?;
        let source = Source(*run.first()?);
        let address = self.address;
        let (bytes, rest) = self.bytes.split_at_checked(run.len())?;
        self.address = address.saturating_add(run.len() as u64);
        self.bytes = rest;
        self.origins = self.origins.get(run.len()..)?;
        Some(Line {
            address,
            bytes,
            source,
        })
    }
}

// The most bytes that are shown at a time.
pub(crate) const LARGEST_EXTENT: usize = 1 << 20;

// The bytes that are asked for: `length` of them from an address on.
#[derive(Clone, Copy)]
pub(crate) struct Extent {
    address: u64,
    length: usize,
    ghost few: { length ≤ 1048576 },
}

impl Extent {
    pub(crate) fn new(address: u64, length: u64) -> Result<Extent, Failure>
        ensures { MatchResult result (λ e. (e.address ≡ address) × (e.length ≡ length)) (λ _. 1048576 < length) }
    {
        if length > LARGEST_EXTENT as u64 {
            return Err(Failure::TooManyBytes);
        }
        Ok(Extent {
            address,
            length: length as usize,
        })
    }
}

impl<R: Print + AllocGlobal> Report<'_, R> {
    pub(crate) fn bytes(&self, plan: &Plan, extent: Extent) -> Result<(), Failure> {
        let Extent { address, length } = extent;
        let alloc = self.rt.alloc();
        let mut bytes = vec![in alloc; 0u8; length]?;
        let mut origins = vec![in alloc; None; length]?;
        let filled = plan
            .bytes(address, bytes.as_mut_slice())
            .and_then(|()| plan.origins(address, origins.as_mut_slice()));
        if let Err(fault) = filled {
            return Ok(self.refused(&fault)?);
        }
        let name = self.name;
        println!(self.rt; "{name}: bytes address={address:#x} length={length}")?;
        let lines = Lines {
            address,
            bytes: bytes.as_slice(),
            origins: origins.as_slice(),
        };
        for line in lines {
            self.rt.println(line)?;
        }
        Ok(())
    }
}

impl Report<'_, HostRuntime> {
    // Reads the file, and says what is planned for it.
    pub(crate) fn read_and_plan(&self, bias: u64) -> Result<(), Failure> {
        let bytes = self.read()?;
        let opened = Opened::new(bytes.as_slice());
        Ok(self.plan(&Plan::new(&opened, bias))?)
    }

    // Reads the file, and shows bytes of its plan.
    pub(crate) fn read_and_show(&self, bias: u64, extent: Extent) -> Result<(), Failure> {
        let bytes = self.read()?;
        let opened = Opened::new(bytes.as_slice());
        self.bytes(&Plan::new(&opened, bias), extent)
    }
}
