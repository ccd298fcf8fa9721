// The rules on the relocations.
ghost use Rattle.std.specs.Prelude.{◌≡◌, ◌<◌, Decides, [], ◌∷◌};
ghost use Rattle.faults.specs.Rules.{Tried};
ghost use Rattle.faults.specs.declared.fault.Reason.TheVariants.{RelocationType as WrongType, RelocationTarget};
ghost use Rattle.elf.specs.Segments.{on_each, phnum};
ghost use Rattle.elf.specs.Searches.{FirstOf};
ghost use Rattle.elf.specs.Dynamic.{relocation_table, BadKind, BadTarget, Writable, relocation_rules};

use crate::bytes::is_aligned;
use crate::kinds::{Access, RelocationType};
use crate::records::Relocation;
use crate::stages::{Dynamics, Headers, Records};
use faults::fault::{Fault, Reason};

impl<'a> Headers<'a> {
    // Whether the memory of the writable segment `i` holds the word at an address.
    fn holds_word(&self, i: u32, address: u64) -> bool
        requires { i < phnum self.now.layout self.now.bytes.now }
        ensures { Decides result (Writable self.now.layout self.now.bytes.now address i) }
    {
        let word = self.layout.word as u64;
        self.get(i).grants(Access::Write, address, word)
    }

    // The first writable segment whose memory holds the word at an address.
    fn holding_word(&self, address: u64) -> Option<u32>
        ensures { FirstOf (phnum self.now.layout self.now.bytes.now) (Writable self.now.layout self.now.bytes.now address) result }
    {
        (0..self.count()).find(|i| self.holds_word(*i, address))
    }
}

impl<'a> Records<'a, Relocation> {
    fn has_bad_kind(&self, i: u32) -> bool
        requires { i < self.now.table.count }
        ensures { Decides result (BadKind self.now.headers.layout self.now.headers.bytes.now self.now.table i) }
    {
        let r = self.get(i);
        let relative = r.is(RelocationType::Relative);
        !relative && !r.is(RelocationType::Nothing) || relative && r.symbol != 0
    }

    fn has_bad_target(&self, i: u32) -> bool
        requires { i < self.now.table.count }
        ensures { Decides result (BadTarget self.now.headers.layout self.now.headers.bytes.now self.now.table i) }
    {
        let r = self.get(i);
        if !r.is(RelocationType::Relative) {
            return false;
        }
        !is_aligned(r.offset, self.headers.layout.word)
            || self.headers.holding_word(r.offset).is_none()
    }

    // The rules on the relocations of the table.
    fn check(&self) -> Result<(), Fault>
        ensures { Tried (on_each WrongType self.now.table (BadKind self.now.headers.layout self.now.headers.bytes.now self.now.table) ∷ on_each RelocationTarget self.now.table (BadTarget self.now.headers.layout self.now.headers.bytes.now self.now.table) ∷ []) result }
    {
        self.refuse(Reason::RelocationType, |i| self.has_bad_kind(i))?;
        self.refuse(Reason::RelocationTarget, |i| self.has_bad_target(i))
    }
}

impl<'a> Dynamics<'a> {
    fn relocations(&self) -> Records<'a, Relocation>
        ensures same { result.headers ≡ self.now.headers }
        ensures table { result.table ≡ relocation_table self.now.headers.layout self.now.headers.bytes.now }
    {
        Records::new(self.headers, self.relocation_table())
    }

    pub(crate) fn check_relocations(&self) -> Result<(), Fault>
        ensures { Tried (relocation_rules self.now.headers.layout self.now.headers.bytes.now) result }
    {
        self.relocations().check()
    }
}
