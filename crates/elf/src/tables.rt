// The relocation table of a position-independent file.
ghost use Rattle.std.specs.Prelude.{◌≡◌, ◌<◌, Decides, MatchOption};
ghost use Rattle.faults.specs.Rules.{Answers, Checked};
ghost use Rattle.faults.specs.declared.fault.Reason.TheVariants.{RelocationTable};
ghost use Rattle.elf.specs.Kinds.{tag_number};
ghost use Rattle.elf.specs.Segments.{headers, offset_in, once, phnum};
ghost use Rattle.elf.specs.Searches.{FirstOf};
ghost use Rattle.elf.specs.Stages.{Bounded};
ghost use Rattle.elf.specs.Dynamic.{dynamic_header, Stands, value_of, HoldsFileBytes, BadSizes, BadFigures, BadTable, dynamic_rules, relocation_table, none};

use crate::bytes::holds;
use crate::kinds::{HeaderType, Tag};
use crate::records::Table;
use crate::stages::{Dynamics, Headers};
use faults::fault::{Fault, Reason};

impl<'a> Headers<'a> {
    // Whether the file bytes of the load segment `i` hold some bytes.
    fn holds_file_bytes(&self, i: u32, address: u64, size: u64) -> bool
        requires { i < phnum self.now.layout self.now.bytes.now }
        ensures { Decides result (HoldsFileBytes self.now.layout self.now.bytes.now address size i) }
    {
        let h = self.get(i);
        h.is(HeaderType::Load) && holds(h.vaddr, h.filesz, address, size)
    }

    // The first load segment whose file bytes hold some bytes.
    fn holding(&self, address: u64, size: u64) -> Option<u32>
        ensures { FirstOf (phnum self.now.layout self.now.bytes.now) (HoldsFileBytes self.now.layout self.now.bytes.now address size) result }
    {
        (0..self.count()).find(|i| self.holds_file_bytes(*i, address, size))
    }

    fn has_bad_sizes(&self, entry: u64, size: u64) -> bool
        ensures { Decides result (BadSizes self.now.layout entry size) }
    {
        let relocation = self.layout.relocation as u64;
        entry != relocation
            || size % relocation != 0
            || size > relocation * self.layout.limits.relocations
    }

    fn has_bad_figures(&self, entry: u64, address: u64, size: u64) -> bool
        ensures { Decides result (BadFigures self.now.layout self.now.bytes.now entry address size) }
    {
        self.has_bad_sizes(entry, size) || size != 0 && self.holding(address, size).is_none()
    }

    // The file, with its dynamic table.
    pub(crate) fn check_dynamic(&self) -> Result<Dynamics<'a>, Fault>
        requires { Bounded self.now.layout self.now.bytes.now }
        ensures { Answers (dynamic_rules self.now.layout self.now.bytes.now) (λ d. (d.headers.layout ≡ self.now.layout) × (d.headers.bytes.now ≡ self.now.bytes.now)) result }
    {
        self.check_extent()?;
        let dynamics = Dynamics { headers: *self };
        dynamics.check_end()?;
        dynamics.check_tags()?;
        dynamics.check_table()?;
        Ok(dynamics)
    }
}

impl<'a> Dynamics<'a> {
    // The value of the first entry with the tag.
    fn value(&self, tag: Tag) -> Option<u64>
        ensures { MatchOption result (Stands self.now.headers.layout self.now.headers.bytes.now (tag_number tag) → ⊥) (λ v. Stands self.now.headers.layout self.now.headers.bytes.now (tag_number tag) × (v ≡ value_of self.now.headers.layout self.now.headers.bytes.now (tag_number tag))) }
    {
        let entries = self.entries();
        let i = entries.tagged(entries.table.count, u64::from(tag))?;
        Some(entries.get(i).value)
    }

    fn has_bad_table(&self) -> bool
        ensures { Decides result (BadTable self.now.headers.layout self.now.headers.bytes.now) }
    {
        let address = self.value(Tag::Rela);
        let size = self.value(Tag::RelaSize);
        let entry = self.value(Tag::RelaEntry);
        match (address, size, entry) {
            (None, None, None) => false,
            (Some(address), Some(size), Some(entry)) => {
                self.headers.has_bad_figures(entry, address, size)
            }
            _ => true,
        }
    }

    fn check_table(&self) -> Result<(), Fault>
        ensures { Checked (once RelocationTable (offset_in (headers self.now.headers.layout self.now.headers.bytes.now) (dynamic_header self.now.headers.layout self.now.headers.bytes.now)) (BadTable self.now.headers.layout self.now.headers.bytes.now)) result }
    {
        self.refuse_if(self.has_bad_table(), Reason::RelocationTable)
    }

    // Where the relocations lie in the file.
    pub(crate) fn relocation_table(&self) -> Table
        ensures { result ≡ relocation_table self.now.headers.layout self.now.headers.bytes.now }
    {
        self.held_table()
            .unwrap_or(Table::none(self.headers.layout.relocation))
    }

    // The relocation table that the three tags describe and a segment holds.
    fn held_table(&self) -> Option<Table>
        ensures { MatchOption result (none self.now.headers.layout.relocation ≡ relocation_table self.now.headers.layout self.now.headers.bytes.now) (λ t. t ≡ relocation_table self.now.headers.layout self.now.headers.bytes.now) }
    {
        let address = self.value(Tag::Rela)?;
        let size = self.value(Tag::RelaSize)?;
        self.value(Tag::RelaEntry)?;
        let headers = self.headers;
        let i = headers.holding(address, size)?;
        let h = headers.get(i);
        let width = headers.layout.relocation as u64;
        Some(Table {
            first: h.offset + (address - h.vaddr),
            size: width,
            count: (size / width) as u32,
        })
    }
}
