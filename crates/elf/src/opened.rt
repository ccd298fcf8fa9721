// The checks of a file in their order, and the opened file.
ghost use Rattle.std.specs.Prelude.{◌≡◌, ◌+◌, ◌<◌, ◌≤◌, length, MatchOption};
ghost use Rattle.faults.specs.Rules.{Answers, Tried, Decided, InTurn};
ghost use Rattle.elf.specs.Layouts.{elf64};
ghost use Rattle.elf.specs.Records.{file_header, relocation_at};
ghost use Rattle.elf.specs.Segments.{header};
ghost use Rattle.elf.specs.Stages.{Readable};
ghost use Rattle.elf.specs.Dynamic.{dynamic_table, entry_in, relocation_in, format_rules, relocation_rules, open_rules};
ghost use Rattle.elf.specs.Files.{HasHeader, HasEntry, Listing};
ghost use Rattle.elf.specs.declared.records.Table.{Table as Rows};

use crate::bytes::has;
use crate::kinds::HeaderType;
use crate::records::{
    DynamicEntry, FileHeader, ProgramHeader, Record, Relocation, Table, file_header,
};
use crate::stages::{Dynamics, File, Headers};
use faults::fault::Fault;

impl<'a> File<'a> {
    // The rules up to the one on the relocation table.
    fn check_format(&self) -> Result<Dynamics<'a>, Fault>
        ensures { Answers (format_rules self.now.layout self.now.bytes.now) (λ d. (d.headers.layout ≡ self.now.layout) × (d.headers.bytes.now ≡ self.now.bytes.now)) result }
    {
        let headers = self.check_identity()?.check()?;
        headers.check_segments()?;
        headers.check_dynamic()
    }

    fn check(&self) -> Result<(), Fault>
        ensures { Tried (open_rules self.now.layout self.now.bytes.now) result }
    {
        self.check_format()?.check_relocations()
    }

    // The file header, where the file is long enough to have one.
    fn file_header(&self) -> Option<FileHeader>
        ensures { MatchOption result (length self.now.bytes.now < self.now.layout.file.size) (λ h. (self.now.layout.file.size ≤ length self.now.bytes.now) × (h ≡ file_header self.now.layout self.now.bytes.now)) }
    {
        if !self.has_header() {
            return None;
        }
        Some(file_header(self.layout, self.bytes))
    }

    // The program headers, where the file has its header and all of them within the limits.
    #[tactic(auto, unfolding(crate::specs::Records::file_header))]
    fn headers(&self) -> Option<Headers<'a>>
        ensures { MatchOption result (Readable self.now.layout self.now.bytes.now → ⊥) (λ h. (h.layout ≡ self.now.layout) × (h.bytes.now ≡ self.now.bytes.now)) }
    {
        let l = self.layout;
        let header = self.file_header()?;
        if self.bytes.len() > l.limits.file || header.phnum > l.limits.headers {
            return None;
        }
        let size = l.header.size as u64 * header.phnum as u64;
        if !has(self.bytes, header.phoff, size) {
            return None;
        }
        Some(Headers {
            layout: l,
            bytes: self.bytes,
        })
    }

    fn dynamic_entry(&self, i: u32) -> Option<DynamicEntry>
        ensures { MatchOption result (HasEntry self.now.layout self.now.bytes.now i → ⊥) (λ e. HasEntry self.now.layout self.now.bytes.now i × (e ≡ entry_in self.now.layout self.now.bytes.now (dynamic_table self.now.layout self.now.bytes.now) i)) }
    {
        self.headers()?.dynamic_entry(i)
    }

    fn relocation_table(&self) -> Table
        ensures listing { Listing self.now.layout self.now.bytes.now result }
        ensures limit { result.count ≤ self.now.layout.limits.relocations }
    {
        match self.check_format() {
            Ok(dynamics) => dynamics.relocation_table(),
            // This cannot fail: past a refusal there are no relocations, as `listing` says.
            Err(_) => Table::none(self.layout.relocation),
        }
    }

    fn relocation(&self, i: u32) -> Option<Relocation>
        ensures { (t : Rows) × Listing self.now.layout self.now.bytes.now t × MatchOption result (t.count ≤ i) (λ x. (i < t.count) × (x ≡ relocation_in self.now.layout self.now.bytes.now t i)) }
    {
        let table = self.relocation_table();
        if i >= table.count {
            return None;
        }
        let at = table.offset(i) as usize;
        Some(Relocation::read(self.layout, self.bytes, at))
    }
}

impl<'a> Headers<'a> {
    fn dynamic_entry(&self, i: u32) -> Option<DynamicEntry>
        ensures { MatchOption result (HasEntry self.now.layout self.now.bytes.now i → ⊥) (λ e. HasEntry self.now.layout self.now.bytes.now i × (e ≡ entry_in self.now.layout self.now.bytes.now (dynamic_table self.now.layout self.now.bytes.now) i)) }
    {
        let d = self.first_of(HeaderType::Dynamic)?;
        let h = self.get(d);
        let size = self.layout.dynamic as u64;
        if i as u64 >= h.filesz / size {
            return None;
        }
        let at = h.offset.checked_add(size * i as u64)?;
        let file = self.file();
        file.record(at)
    }
}

// Checks the file against the rules of the format, and answers the fault of the first rule that it breaks.
pub fn check(file: &[u8]) -> Result<(), Fault>
    ensures { Tried (open_rules elf64 file.now) result }
{
    File::elf64(file).check()
}

// A file's bytes, to be read as those of an ELF file.
#[derive(Clone, Copy)]
pub struct Opened<'a> {
    file: &'a [u8],
}

// Opens a file that keeps the rules of the format; any other is refused by the first rule that it breaks.
pub fn open(file: &[u8]) -> Result<Opened<'_>, Fault>
    ensures { Answers (open_rules elf64 file.now) (λ o. o.file.now ≡ file.now) result }
{
    check(file)?;
    Ok(Opened::new(file))
}

// How many faults the rules give of a file at the most: one, and none exactly where all are clear.
pub fn faults_at_most() -> u8
    ensures value { result ≡ 1 }
    ensures decided { Decided (open_rules elf64) }
    ensures in_turn { InTurn (format_rules elf64) (relocation_rules elf64) }
{
    1u8
}

impl<'a> Opened<'a> {
    // An opened file over these bytes, whatever they are. Made past a refused check, it meets that fault when it is planned.
    pub fn new(file: &'a [u8]) -> Opened<'a>
        ensures { result.file.now ≡ file.now }
    {
        Opened { file }
    }

    // The file's bytes.
    pub fn bytes(&self) -> &'a [u8]
        ensures { result.now ≡ self.now.file.now }
    {
        self.file
    }

    // The file header, where the file is long enough to have one.
    pub fn file_header(&self) -> Option<FileHeader>
        ensures { MatchOption result (length self.now.file.now < 64) (λ h. (64 ≤ length self.now.file.now) × (h ≡ file_header elf64 self.now.file.now)) }
    {
        File::elf64(self.file).file_header()
    }

    // The program header `i`, where the file has it whole.
    #[tactic(auto, unfolding(crate::specs::Records::file_header))]
    pub fn header(&self, i: u32) -> Option<ProgramHeader>
        ensures { MatchOption result (HasHeader elf64 self.now.file.now i → ⊥) (λ h. HasHeader elf64 self.now.file.now i × (h ≡ header elf64 self.now.file.now i)) }
    {
        let file = File::elf64(self.file);
        let header = file.file_header()?;
        if i >= header.phnum as u32 {
            return None;
        }
        let before = file.layout.header.size as u64 * i as u64;
        file.record(header.phoff.checked_add(before)?)
    }

    // The entry `i` of the dynamic table, where the file has it whole.
    pub fn dynamic_entry(&self, i: u32) -> Option<DynamicEntry>
        ensures { MatchOption result (HasEntry elf64 self.now.file.now i → ⊥) (λ e. HasEntry elf64 self.now.file.now i × (e ≡ entry_in elf64 self.now.file.now (dynamic_table elf64 self.now.file.now) i)) }
    {
        File::elf64(self.file).dynamic_entry(i)
    }

    // Where the relocations lie: nowhere, unless the rules up to the one on the relocation table are clear.
    pub fn relocation_table(&self) -> Table
        ensures listing { Listing elf64 self.now.file.now result }
        ensures limit { result.count ≤ 65536 }
    {
        File::elf64(self.file).relocation_table()
    }

    // How many relocations there are.
    pub fn relocations(&self) -> u32
        ensures count { (t : Rows) × Listing elf64 self.now.file.now t × (result ≡ t.count) }
        ensures limit { result ≤ 65536 }
    {
        self.relocation_table().count
    }

    // The relocation `i`, where there is one.
    pub fn relocation(&self, i: u32) -> Option<Relocation>
        ensures { (t : Rows) × Listing elf64 self.now.file.now t × MatchOption result (t.count ≤ i) (λ x. (i < t.count) × (x ≡ relocation_in elf64 self.now.file.now t i)) }
    {
        File::elf64(self.file).relocation(i)
    }

    // The relocation whose bytes begin at an offset, where the file has it whole.
    pub fn relocation_at(&self, offset: u64) -> Option<Relocation>
        ensures { MatchOption result (length self.now.file.now < offset + 24) (λ x. (offset + 24 ≤ length self.now.file.now) × (x ≡ relocation_at elf64 self.now.file.now offset)) }
    {
        File::elf64(self.file).record(offset)
    }
}
