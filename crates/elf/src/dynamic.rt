// The dynamic table of a position-independent file.
ghost use Rattle.std.specs.Prelude.{◌≡◌, ◌<◌, ◌≤◌, true, Decides, MatchOption, MatchResult, ◌≢◌};
ghost use Rattle.faults.specs.declared.fault.Layer.TheVariants.{Open};
ghost use Rattle.faults.specs.Rules.{Checked};
ghost use Rattle.faults.specs.declared.fault.Reason.TheVariants.{DynamicExtent, DynamicEnd, DynamicTag};
ghost use Rattle.elf.specs.Segments.{file_type, headers, offset_in, once, on_each, phnum};
ghost use Rattle.elf.specs.Searches.{FirstOf};
ghost use Rattle.elf.specs.Dynamic.{OtherDynamic, BadExtent, BadDynamic, has_dynamic, dynamic_header, dynamic_table, entry_in, entries, Endless, Barred, Describes, BadTag};

use crate::bytes::has;
use crate::identity::refusal;
use crate::kinds::{FileType, HeaderType, Tag};
use crate::records::{DynamicEntry, ProgramHeader, Table};
use crate::stages::{Dynamics, Headers, Records};
use faults::fault::{Fault, Reason};

impl<'a> Headers<'a> {
    #[tactic(auto, unfolding(crate::specs::Records::file_header))]
    fn is_independent(&self) -> bool
        ensures { Decides result (file_type self.now.bytes.now ≡ 3) }
    {
        self.file_header().is(FileType::Independent)
    }

    fn has_bad_extent(&self, h: &ProgramHeader) -> bool
        ensures { Decides result (BadExtent self.now.layout self.now.bytes.now h.now) }
    {
        h.filesz > self.layout.limits.dynamic
            || h.filesz % self.layout.dynamic as u64 != 0
            || !has(self.bytes, h.offset, h.filesz)
    }

    // Whether the header `j` is a dynamic header of another number than `i`.
    fn is_other_dynamic(&self, i: u32, j: u32) -> bool
        requires { j < phnum self.now.layout self.now.bytes.now }
        ensures { Decides result (OtherDynamic self.now.layout self.now.bytes.now i j) }
    {
        j != i && self.is(j, HeaderType::Dynamic)
    }

    fn is_bad_dynamic(&self, i: u32) -> bool
        requires { i < phnum self.now.layout self.now.bytes.now }
        ensures { Decides result (BadDynamic self.now.layout self.now.bytes.now i) }
    {
        if !self.is_independent() || !self.is(i, HeaderType::Dynamic) {
            return false;
        }
        match self.other_dynamic(i) {
            None => self.has_bad_extent(&self.get(i)),
            Some(j) => j < i,
        }
    }

    // The first dynamic header of another number than `i`.
    fn other_dynamic(&self, i: u32) -> Option<u32>
        ensures { FirstOf (phnum self.now.layout self.now.bytes.now) (OtherDynamic self.now.layout self.now.bytes.now i) result }
    {
        (0..self.count()).find(|j| self.is_other_dynamic(i, *j))
    }

    pub(crate) fn check_extent(&self) -> Result<(), Fault>
        ensures { Checked (on_each DynamicExtent (headers self.now.layout self.now.bytes.now) (BadDynamic self.now.layout self.now.bytes.now)) result }
    {
        self.refuse(Reason::DynamicExtent, |i| self.is_bad_dynamic(i))
    }

    // The number of a position-independent file's dynamic header.
    pub(crate) fn dynamic_header(&self) -> Option<u32>
        ensures { MatchOption result (has_dynamic self.now.layout self.now.bytes.now ≢ true) (λ i. (has_dynamic self.now.layout self.now.bytes.now ≡ true) × (i ≡ dynamic_header self.now.layout self.now.bytes.now)) }
    {
        if !self.is_independent() {
            return None;
        }
        self.first_of(HeaderType::Dynamic)
    }
}

impl<'a> Dynamics<'a> {
    // The entries that the dynamic header has room for, where the file has one.
    fn table(&self) -> Option<Records<'a, DynamicEntry>>
        ensures { MatchOption result (has_dynamic self.now.headers.layout self.now.headers.bytes.now ≢ true) (λ t. (has_dynamic self.now.headers.layout self.now.headers.bytes.now ≡ true) × (t.headers ≡ self.now.headers) × (t.table ≡ dynamic_table self.now.headers.layout self.now.headers.bytes.now)) }
    {
        let i = self.headers.dynamic_header()?;
        let h = self.headers.get(i);
        let size = self.headers.layout.dynamic as u64;
        let table = Table {
            first: h.offset,
            size,
            count: (h.filesz / size) as u32,
        };
        Some(Records::new(self.headers, table))
    }

    // The entries that are read: those before the first of tag 0.
    pub(crate) fn entries(&self) -> Records<'a, DynamicEntry>
        ensures same { result.headers ≡ self.now.headers }
        ensures table { result.table ≡ entries self.now.headers.layout self.now.headers.bytes.now }
    {
        let Some(all) = self.table() else {
            return Records::new(self.headers, Table::none(self.headers.layout.dynamic));
        };
        let end = all.tagged(all.table.count, u64::from(Tag::Null));
        let table = Table {
            first: all.table.first,
            size: self.headers.layout.dynamic as u64,
            count: end.unwrap_or(all.table.count),
        };
        Records::new(self.headers, table)
    }

    // The offset of the dynamic header, where the file has one.
    pub(crate) fn place(&self) -> Option<u64>
        ensures { MatchOption result (has_dynamic self.now.headers.layout self.now.headers.bytes.now ≢ true) (λ p. (has_dynamic self.now.headers.layout self.now.headers.bytes.now ≡ true) × (p ≡ offset_in (headers self.now.headers.layout self.now.headers.bytes.now) (dynamic_header self.now.headers.layout self.now.headers.bytes.now))) }
    {
        let i = self.headers.dynamic_header()?;
        Some(self.headers.table().offset(i))
    }

    // Refuses the file at its dynamic header, where it has one and a rule fits it.
    pub(crate) fn refuse_if(&self, fits: bool, reason: Reason) -> Result<(), Fault>
        ensures { MatchResult result (λ _. fits ≡ true → has_dynamic self.now.headers.layout self.now.headers.bytes.now ≢ true) (λ f. (fits ≡ true) × (f ≡ record { reason = reason; layer = Open; «record» = 0; place = offset_in (headers self.now.headers.layout self.now.headers.bytes.now) (dynamic_header self.now.headers.layout self.now.headers.bytes.now) })) }
    {
        match self.place() {
            Some(place) if fits => Err(refusal(reason, place)),
            _ => Ok(()),
        }
    }

    fn is_endless(&self) -> bool
        ensures { Decides result (Endless self.now.headers.layout self.now.headers.bytes.now) }
    {
        let read = self.entries().table.count;
        self.table().is_some_and(|all| all.table.count == read)
    }

    pub(crate) fn check_end(&self) -> Result<(), Fault>
        ensures { Checked (once DynamicEnd (offset_in (headers self.now.headers.layout self.now.headers.bytes.now) (dynamic_header self.now.headers.layout self.now.headers.bytes.now)) (Endless self.now.headers.layout self.now.headers.bytes.now)) result }
    {
        self.refuse_if(self.is_endless(), Reason::DynamicEnd)
    }

    pub(crate) fn check_tags(&self) -> Result<(), Fault>
        ensures { Checked (on_each DynamicTag (entries self.now.headers.layout self.now.headers.bytes.now) (BadTag self.now.headers.layout self.now.headers.bytes.now (entries self.now.headers.layout self.now.headers.bytes.now))) result }
    {
        self.entries().check()
    }
}

impl<'a> Records<'a, DynamicEntry> {
    // The first of the first `n` entries that has a tag.
    pub(crate) fn tagged(&self, n: u32, tag: u64) -> Option<u32>
        requires { n ≤ self.now.table.count }
        ensures { FirstOf n (λ i. (entry_in self.now.headers.layout self.now.headers.bytes.now self.now.table i).tag ≡ tag) result }
    {
        (0..n).find(|i| self.get(*i).tag == tag)
    }

    // Whether the entry `i` has a tag that the loader does not take, or repeats one.
    fn is_bad_tag(&self, i: u32) -> bool
        requires { i < self.now.table.count }
        ensures { Decides result (BadTag self.now.headers.layout self.now.headers.bytes.now self.now.table i) }
    {
        let entry = self.get(i);
        is_barred(&entry) || describes_table(&entry) && self.tagged(i, entry.tag).is_some()
    }

    fn check(&self) -> Result<(), Fault>
        ensures { Checked (on_each DynamicTag self.now.table (BadTag self.now.headers.layout self.now.headers.bytes.now self.now.table)) result }
    {
        self.refuse(Reason::DynamicTag, |i| self.is_bad_tag(i))
    }
}

fn is_barred(entry: &DynamicEntry) -> bool
    ensures { Decides result (Barred entry.now.tag) }
{
    [Tag::Needed, Tag::Rel, Tag::TextRel, Tag::JmpRel, Tag::Relr]
        .iter()
        .any(|tag| entry.is(*tag))
}

fn describes_table(entry: &DynamicEntry) -> bool
    ensures { Decides result (Describes entry.now.tag) }
{
    entry.is(Tag::Rela) || entry.is(Tag::RelaSize) || entry.is(Tag::RelaEntry)
}
