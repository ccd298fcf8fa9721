// An opened file whose rules of opening are clear, and the rules of planning on it.
ghost use Rattle.std.specs.Prelude.{◌≡◌, ◌<◌, Decides, MatchOption};
ghost use Rattle.faults.specs.Rules.{AllClear, Answers, Tried};
ghost use Rattle.elf.specs.Layouts.{elf64};
ghost use Rattle.elf.specs.Searches.{SomeBelow, Highest};
ghost use Rattle.elf.specs.Segments.{Load, file_type, header, phnum, entry_point};
ghost use Rattle.elf.specs.Dynamic.{open_rules};
ghost use Rattle.image.specs.Plans.{end_below, BadBias, PastEnd, plan_rules};
ghost use Rattle.image.specs.Stages.{AllClear-prop};

use crate::placed::Placed;
use elf::kinds::{FileType, HeaderType};
use elf::layout::{ELF64, PAGE};
use elf::opened::{Opened, check};
use elf::records::{FileHeader, ProgramHeader};
use faults::fault::{Fault, Layer, Reason};

// An opened file that keeps the rules of opening.
#[derive(Clone, Copy)]
pub(crate) struct Checked<'a> {
    pub(crate) opened: Opened<'a>,
    ghost clear: { AllClear (open_rules elf64 opened.file.now) } by { AllClear-prop (open_rules elf64 opened.file.now) },
}

impl<'a> Checked<'a> {
    // Checks a file against the rules of opening.
    pub(crate) fn new(opened: &Opened<'a>) -> Result<Checked<'a>, Fault>
        ensures { Answers (open_rules elf64 opened.now.file.now) (λ c. c.opened.file.now ≡ opened.now.file.now) result }
    {
        check(opened.bytes())?;
        Ok(Checked { opened: *opened })
    }

    fn file_header(&self) -> FileHeader
        ensures kind { result.kind ≡ file_type self.now.opened.file.now }
        ensures phnum { result.phnum ≡ phnum elf64 self.now.opened.file.now }
        ensures entry { result.entry ≡ entry_point elf64 self.now.opened.file.now }
    {
        self.opened.file_header().unwrap()
    }

    // How many program headers the file has.
    pub(crate) fn headers(&self) -> u32
        ensures { result ≡ phnum elf64 self.now.opened.file.now }
    {
        self.file_header().phnum as u32
    }

    // The entry point, without bias.
    pub(crate) fn entry(&self) -> u64
        ensures { result ≡ entry_point elf64 self.now.opened.file.now }
    {
        self.file_header().entry
    }

    // The program header `i`. The bound is on the argument, as in the reader.
    pub(crate) fn header(&self, i: u32) -> ProgramHeader
        requires { i < phnum elf64 self.now.opened.file.now }
        ensures { result ≡ header elf64 self.now.opened.file.now i }
    {
        self.opened.header(i).unwrap()
    }

    // The last load header.
    fn last_load(&self) -> Option<u32>
        ensures { MatchOption result (SomeBelow (phnum elf64 self.now.opened.file.now) (λ k. Load (header elf64 self.now.opened.file.now k)) → ⊥) (λ i. Highest (phnum elf64 self.now.opened.file.now) (λ k. Load (header elf64 self.now.opened.file.now k)) i) }
    {
        (0..self.headers())
            .rev()
            .find(|i| self.header(*i).is(HeaderType::Load))
    }

    // The end of the last load segment, without bias. A `match`: in `map_or` the closure's sum would need two clauses of its own.
    fn end(&self) -> u64
        ensures { result ≡ end_below elf64 self.now.opened.file.now (phnum elf64 self.now.opened.file.now) }
    {
        match self.last_load() {
            None => 0,
            Some(i) => {
                let last = self.header(i);
                last.vaddr + last.memsz
            }
        }
    }

    fn is_bad_bias(&self, bias: u64) -> bool
        ensures { Decides result (BadBias self.now.opened.file.now bias) }
    {
        bias % PAGE != 0 || self.file_header().is(FileType::Static) && bias != 0
    }

    fn is_past_end(&self, bias: u64) -> bool
        ensures { Decides result (PastEnd elf64 self.now.opened.file.now bias) }
    {
        bias > ELF64.end - self.end()
    }

    // The rules of planning.
    fn check_bias(&self, bias: u64) -> Result<(), Fault>
        ensures { Tried (plan_rules elf64 self.now.opened.file.now bias) result }
    {
        if self.is_bad_bias(bias) {
            return Err(Fault::new(Layer::Plan, Reason::BiasValue, bias));
        }
        if self.is_past_end(bias) {
            return Err(Fault::new(Layer::Plan, Reason::BiasEnd, bias));
        }
        Ok(())
    }

    // Places the file at a bias that keeps the rules of planning.
    pub(crate) fn at(&self, bias: u64) -> Result<Placed<'a>, Fault>
        ensures { Answers (plan_rules elf64 self.now.opened.file.now bias) (λ p. (p.checked.opened.file.now ≡ self.now.opened.file.now) × (p.bias ≡ bias)) result }
    {
        self.check_bias(bias)?;
        Ok(Placed {
            checked: *self,
            bias,
        })
    }
}
