// The calls on a space in Sv39 tables.
ghost use Rattle.std.specs.Prelude.{◌≡◌, ◌+◌, ◌*◌, ◌<◌, ◌≤◌, MatchOption, MatchResult, OnErr};
ghost use Rattle.faults.specs.declared.fault.Layer.TheVariants.{Space as SpaceLayer};
ghost use Rattle.faults.specs.declared.fault.Reason.TheVariants.{OutsideWindow};
ghost use Rattle.faults.specs.Rules.{single, Hit, Answers};
ghost use Rattle.space.specs.Meaning.{Outside};
ghost use Rattle.space.specs.Calls.{Step, byte_rules, Cleared, Looks, Maps, Unmaps, Pokes};
ghost use Rattle.sv39.specs.Tables.{count, word, mapping_in};
ghost use Rattle.sv39.specs.Spaces.{always, memory_of, means, means_sound, InWindow, IsByte};

use crate::entry::{leaf_of, page_in, rights_in};
use crate::paging::Sv39;
use faults::fault::{Fault, Reason};
use space::parts::{Bounds, Mapping, is_lawful, page_refusal, refusal};
use space::space::Space;

impl<'a> Sv39<'a> {
    // The number of a page's entry in the tables, where the page lies in the window.
    fn number(&self, page: u32) -> Option<usize>
        ensures { MatchOption result (Outside (means self.now) page) (λ k. InWindow self.now page k) }
    {
        let j = page.checked_sub(self.figures.first())?;
        (j < self.figures.count()).then_some(1024 + j as usize)
    }

    // The same; refused where the page lies outside the window.
    fn slot(&self, page: u32) -> Result<usize, Fault>
        ensures { MatchResult result (λ k. InWindow self.now page k) (λ f. Hit (single OutsideWindow SpaceLayer 0 (page * 4096) (Outside (means self.now) page)) f) }
    {
        self.number(page)
            .ok_or(page_refusal(Reason::OutsideWindow, page))
    }

    // What an entry of the leaf tables says.
    fn mapping(&self, slot: usize) -> Option<Mapping>
        requires low { 1024 ≤ slot }
        requires high { slot < 1024 + count self.now.figures }
        ensures { result ≡ mapping_in self.now.figures (word (memory_of self.now) slot) }
    {
        // An entry of the leaf tables is 0 or a leaf, so no other case is told apart.
        let entry = self.tables.entry(slot);
        if entry == 0 {
            return None;
        }
        Some(Mapping {
            frame: (page_in(entry) - self.figures.origin()) as u32,
            rights: rights_in(entry),
        })
    }

    // Where a byte of a frame lies in the memory; refused where no page has the frame, or the index is past the page.
    fn place(&self, frame: u32, index: u32) -> Result<usize, Fault>
        ensures { Answers (byte_rules (means self.now) frame index) (λ at. IsByte self.now frame index at) result }
    {
        if index >= 4096 || !self.frames.is_used(frame) {
            return Err(refusal(Reason::FrameUnused, u64::from(frame)));
        }
        Ok(self.figures.start(frame) + index as usize)
    }
}

impl<'a> Space for Sv39<'a> {
    ghost meaning = { means };

    ghost sound = { λ t _. means_sound t };

    fn bounds(&self) -> Bounds {
        Bounds {
            first: self.figures.first(),
            count: self.figures.count(),
            frames: self.frames.total,
        }
    }

    // Where the set-up was refused the memory stays as it is.
    fn clear(&mut self)
        ensures step { Step always means self.old self.new Cleared }
        ensures refused { self.old.figures.leaves ≡ 0 → memory_of self.new ≡ memory_of self.old }
    {
        // A number and no option: `new` cannot fail, and the figures say by 0 that they were refused.
        if self.figures.leaves == 0 {
            return;
        }
        self.tables.zero(8192, self.figures.leaves as usize * 4096);
        self.frames.release_all();
    }

    // The memory stays as it is.
    fn look(&mut self, page: u32) -> Option<Mapping>
        ensures step { Step always means self.old self.new (Looks page result) }
        ensures memory { memory_of self.new ≡ memory_of self.old }
    {
        self.mapping(self.number(page)?)
    }

    // A refusal leaves the memory as it was.
    fn map(&mut self, page: u32, rights: u8) -> Result<(), Fault>
        ensures step { Step always means self.old self.new (Maps page rights result) }
        ensures refused { OnErr result (memory_of self.new ≡ memory_of self.old) }
    {
        let slot = self.slot(page)?;
        if self.mapping(slot).is_some() {
            return Err(page_refusal(Reason::PageMapped, page));
        }
        let Some(frame) = self.frames.first_free() else {
            return Err(refusal(Reason::NoRoom, 0));
        };
        if !is_lawful(rights) {
            return Err(refusal(Reason::RightsNumber, u64::from(rights)));
        }
        let entry = leaf_of(self.figures.origin() + u64::from(frame), rights);
        let at = self.figures.start(frame);
        self.tables.zero(at, 4096);
        self.tables.set_entry(slot, entry);
        // The frame that `first_free` named.
        self.frames.take(page);
        Ok(())
    }

    // A refusal leaves the memory as it was.
    fn unmap(&mut self, page: u32) -> Result<(), Fault>
        ensures step { Step always means self.old self.new (Unmaps page result) }
        ensures refused { OnErr result (memory_of self.new ≡ memory_of self.old) }
    {
        let slot = self.slot(page)?;
        let Some(mapping) = self.mapping(slot) else {
            return Err(page_refusal(Reason::PageUnmapped, page));
        };
        self.tables.set_entry(slot, 0);
        self.frames.give(mapping.frame);
        Ok(())
    }

    fn peek(&self, frame: u32, index: u32) -> Result<u8, Fault> {
        Ok(self.tables.memory[self.place(frame, index)?])
    }

    // A refusal leaves the memory as it was.
    fn poke(&mut self, frame: u32, index: u32, byte: u8) -> Result<(), Fault>
        ensures step { Step always means self.old self.new (Pokes frame index byte result) }
        ensures refused { OnErr result (memory_of self.new ≡ memory_of self.old) }
    {
        let at = self.place(frame, index)?;
        self.tables.put(at, byte);
        Ok(())
    }
}
