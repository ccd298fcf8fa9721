// The checks of the program headers.
ghost use Rattle.std.specs.Prelude.{◌≡◌, ◌==◌, ◌+◌, ◌^◌, ◌%◌, ◌<◌, ◌≤◌, ◌/◌, ◌⊎◌, map, Decides, MatchOption};
ghost use Rattle.std.specs.List.{count_by, range_with_len};
ghost use Rattle.faults.specs.Rules.{Checked, Tried};
ghost use Rattle.faults.specs.declared.fault.Reason.TheVariants.{EntryPoint, Interpreter, SegmentSize, SegmentAlignment, SegmentFlags, SegmentEnd, SegmentOrder};
ghost use Rattle.elf.specs.Searches.{SomeBelow, FirstOf, Highest};
ghost use Rattle.elf.specs.Kinds.{access_number, header_number};
ghost use Rattle.elf.specs.Segments.{PowerOfTwo, Load, Interprets, BadSize, BadAlign, Misaligned, BadFlags, BadEnd, BadOrder, Executable, BadEntry, last_page, bad_load_count, segment_rules, once, on_each, header, headers, phnum};

use crate::bytes::{has, holds};
use crate::identity::refusal;
use crate::kinds::{Access, HeaderType};
use crate::layout::PAGE;
use crate::records::ProgramHeader;
use crate::stages::Headers;
use faults::fault::{Fault, Reason};

// Whether a number has one binary digit set. By `count_ones`, as the project asks, and not by the library's method of this name.
pub(crate) fn is_power_of_two(n: u64) -> bool
    ensures { Decides result (PowerOfTwo n) }
{
    n.count_ones() == 1
}

impl ProgramHeader {
    fn is_misaligned(&self) -> bool
        ensures { Decides result (Misaligned self.now) }
    {
        let modulus = self.align.max(PAGE);
        self.align != 0 && !is_power_of_two(self.align)
            || self.vaddr % modulus != self.offset % modulus
    }

    // Whether the header is of a segment that allows an access and whose memory holds some bytes.
    pub(crate) fn grants(&self, access: Access, address: u64, size: u64) -> bool
        ensures { Decides result (Load self.now × (self.now.flags / 2 ^ access_number access % 2 ≡ 1) × (self.now.vaddr ≤ address) × (address + size ≤ self.now.vaddr + self.now.memsz)) }
    {
        self.is(HeaderType::Load)
            && access.is_in(self.flags)
            && holds(self.vaddr, self.memsz, address, size)
    }

    // Whether the flags allow nothing, or both to write and to execute.
    fn has_bad_access(&self) -> bool
        ensures { Decides result ((self.now.flags % 8 ≡ 0) ⊎ (self.now.flags % 4 ≡ 3)) }
    {
        let reads = Access::Read.is_in(self.flags);
        let writes = Access::Write.is_in(self.flags);
        let executes = Access::Execute.is_in(self.flags);
        !reads && !writes && !executes || writes && executes
    }
}

impl<'a> Headers<'a> {
    // Whether the header `i` is of a type.
    pub(crate) fn is(&self, i: u32, kind: HeaderType) -> bool
        requires { i < phnum self.now.layout self.now.bytes.now }
        ensures { Decides result ((header self.now.layout self.now.bytes.now i).kind ≡ header_number kind) }
    {
        self.get(i).is(kind)
    }

    // The first header of a type.
    pub(crate) fn first_of(&self, kind: HeaderType) -> Option<u32>
        ensures { FirstOf (phnum self.now.layout self.now.bytes.now) (λ i. (header self.now.layout self.now.bytes.now i).kind ≡ header_number kind) result }
    {
        (0..self.count()).find(|i| self.is(*i, kind))
    }

    // The last load header before the header `i`.
    fn load_before(&self, i: u32) -> Option<u32>
        requires { i < phnum self.now.layout self.now.bytes.now }
        ensures { MatchOption result (SomeBelow i (λ k. Load (header self.now.layout self.now.bytes.now k)) → ⊥) (Highest i (λ k. Load (header self.now.layout self.now.bytes.now k))) }
    {
        (0..i).rev().find(|j| self.is(*j, HeaderType::Load))
    }

    pub(crate) fn check_interpreter(&self) -> Result<(), Fault>
        ensures { Checked (on_each Interpreter (headers self.now.layout self.now.bytes.now) (Interprets self.now.layout self.now.bytes.now)) result }
    {
        self.refuse(Reason::Interpreter, |i| self.is(i, HeaderType::Interpreter))
    }

    // How many load headers there are.
    fn loads(&self) -> usize
        ensures { result ≡ count_by (λ h. h.kind == 1) (map (header self.now.layout self.now.bytes.now) (range_with_len 0 (phnum self.now.layout self.now.bytes.now))) }
    {
        (0..self.count())
            .map(|i| self.get(i))
            .filter(|h| h.is(HeaderType::Load))
            .count()
    }

    pub(crate) fn check_load_count(&self) -> Result<(), Fault>
        ensures { Checked (bad_load_count self.now.layout self.now.bytes.now) result }
    {
        let l = self.layout;
        let count = self.loads();
        if count == 0 || count > l.limits.loads as usize {
            return Err(refusal(Reason::LoadCount, l.file.phnum as u64));
        }
        Ok(())
    }

    fn has_bad_size(&self, i: u32) -> bool
        requires { i < phnum self.now.layout self.now.bytes.now }
        ensures { Decides result (BadSize self.now.layout self.now.bytes.now i) }
    {
        let h = self.get(i);
        h.is(HeaderType::Load)
            && (h.memsz == 0 || h.filesz > h.memsz || !has(self.bytes, h.offset, h.filesz))
    }

    fn has_bad_alignment(&self, i: u32) -> bool
        requires { i < phnum self.now.layout self.now.bytes.now }
        ensures { Decides result (BadAlign self.now.layout self.now.bytes.now i) }
    {
        let h = self.get(i);
        h.is(HeaderType::Load) && h.is_misaligned()
    }

    fn has_bad_flags(&self, i: u32) -> bool
        requires { i < phnum self.now.layout self.now.bytes.now }
        ensures { Decides result (BadFlags self.now.layout self.now.bytes.now i) }
    {
        let h = self.get(i);
        h.is(HeaderType::Load) && h.has_bad_access()
    }

    fn has_bad_end(&self, i: u32) -> bool
        requires { i < phnum self.now.layout self.now.bytes.now }
        ensures { Decides result (BadEnd self.now.layout self.now.bytes.now i) }
    {
        let h = self.get(i);
        let end = self.layout.end;
        h.is(HeaderType::Load) && (h.vaddr > end || h.memsz > end - h.vaddr)
    }

    // Whether the last page of the segment `i` is that of an address or a higher one. A segment that passes 2^64 reaches the last page there is.
    fn reaches(&self, i: u32, address: u64) -> bool
        requires { i < phnum self.now.layout self.now.bytes.now }
        ensures { Decides result (address / 4096 ≤ last_page (header self.now.layout self.now.bytes.now i)) }
    {
        let h = self.get(i);
        let end = h.vaddr.saturating_add(h.memsz);
        address / PAGE <= end.saturating_sub(1) / PAGE
    }

    // Whether a load segment begins no higher than the last page of the one before.
    fn is_out_of_order(&self, i: u32) -> bool
        requires { i < phnum self.now.layout self.now.bytes.now }
        ensures { Decides result (BadOrder self.now.layout self.now.bytes.now i) }
    {
        let h = self.get(i);
        // A `match`: with a closure in `is_some_and` the proof did not close.
        h.is(HeaderType::Load)
            && match self.load_before(i) {
                Some(j) => self.reaches(j, h.vaddr),
                None => false,
            }
    }

    // Whether the header `i` is of an executable segment whose memory holds the address.
    fn executes(&self, i: u32, address: u64) -> bool
        requires { i < phnum self.now.layout self.now.bytes.now }
        ensures { Decides result (Executable self.now.layout self.now.bytes.now address i) }
    {
        self.get(i).grants(Access::Execute, address, 1)
    }

    // The first header of a segment that is executable and whose memory holds the address.
    fn executing(&self, address: u64) -> Option<u32>
        ensures { FirstOf (phnum self.now.layout self.now.bytes.now) (Executable self.now.layout self.now.bytes.now address) result }
    {
        (0..self.count()).find(|i| self.executes(*i, address))
    }

    #[tactic(auto, unfolding(crate::specs::Records::file_header))]
    fn has_bad_entry(&self) -> bool
        ensures { Decides result (BadEntry self.now.layout self.now.bytes.now) }
    {
        let entry = self.file_header().entry;
        entry % 2 == 1 || self.executing(entry).is_none()
    }

    fn check_entry(&self) -> Result<(), Fault>
        ensures { Checked (once EntryPoint self.now.layout.file.entry (BadEntry self.now.layout self.now.bytes.now)) result }
    {
        if self.has_bad_entry() {
            return Err(refusal(Reason::EntryPoint, self.layout.file.entry as u64));
        }
        Ok(())
    }

    // One function for each rule, here and below: each has its own contract.
    fn check_sizes(&self) -> Result<(), Fault>
        ensures { Checked (on_each SegmentSize (headers self.now.layout self.now.bytes.now) (BadSize self.now.layout self.now.bytes.now)) result }
    {
        self.refuse(Reason::SegmentSize, |i| self.has_bad_size(i))
    }

    fn check_alignments(&self) -> Result<(), Fault>
        ensures { Checked (on_each SegmentAlignment (headers self.now.layout self.now.bytes.now) (BadAlign self.now.layout self.now.bytes.now)) result }
    {
        self.refuse(Reason::SegmentAlignment, |i| self.has_bad_alignment(i))
    }

    fn check_flags(&self) -> Result<(), Fault>
        ensures { Checked (on_each SegmentFlags (headers self.now.layout self.now.bytes.now) (BadFlags self.now.layout self.now.bytes.now)) result }
    {
        self.refuse(Reason::SegmentFlags, |i| self.has_bad_flags(i))
    }

    fn check_ends(&self) -> Result<(), Fault>
        ensures { Checked (on_each SegmentEnd (headers self.now.layout self.now.bytes.now) (BadEnd self.now.layout self.now.bytes.now)) result }
    {
        self.refuse(Reason::SegmentEnd, |i| self.has_bad_end(i))
    }

    fn check_order(&self) -> Result<(), Fault>
        ensures { Checked (on_each SegmentOrder (headers self.now.layout self.now.bytes.now) (BadOrder self.now.layout self.now.bytes.now)) result }
    {
        self.refuse(Reason::SegmentOrder, |i| self.is_out_of_order(i))
    }

    pub(crate) fn check_segments(&self) -> Result<(), Fault>
        ensures { Tried (segment_rules self.now.layout self.now.bytes.now) result }
    {
        self.check_sizes()?;
        self.check_alignments()?;
        self.check_flags()?;
        self.check_ends()?;
        self.check_order()?;
        self.check_entry()
    }
}
