// The calls on a region list.
ghost use Rattle.std.specs.Prelude.{◌≡◌, ◌*◌, Some, OnErr};
ghost use Rattle.faults.specs.declared.fault.Layer.TheVariants.{Space as SpaceLayer};
ghost use Rattle.faults.specs.declared.fault.Reason.TheVariants.{OutsideWindow};
ghost use Rattle.faults.specs.Rules.{single, Answers, Checked};
ghost use Rattle.space.specs.Meaning.{Outside};
ghost use Rattle.space.specs.Calls.{Step, byte_rules, Cleared, Looks, Maps, Unmaps, Pokes};
ghost use Rattle.regions.specs.Runs.{HeldBy};
ghost use Rattle.regions.specs.Spaces.{always, memory_of, runs_of, means, means_sound, IsByte};

use crate::list::RegionList;
use faults::fault::{Fault, Reason};
use space::memory::wipe;
use space::parts::{Bounds, Mapping, is_lawful, page_refusal, refusal};
use space::space::Space;

impl<'a> RegionList<'a> {
    // Refuses a page outside the window.
    fn check_window(&self, page: u32) -> Result<(), Fault>
        ensures { Checked (single OutsideWindow SpaceLayer 0 (page * 4096) (Outside (means self.now) page)) result }
    {
        let first = self.figures.first();
        if page < first || page - first >= self.figures.count() {
            return Err(page_refusal(Reason::OutsideWindow, page));
        }
        Ok(())
    }

    // The frame and rights of a page in the run that holds it.
    fn mapping(&self, i: usize, page: u32) -> Mapping
        requires { HeldBy (runs_of self.now) page i }
        ensures { (means self.now).page page ≡ Some result }
    {
        self.runs.get(i).mapping(page)
    }

    // Where a byte of a frame lies in the memory; refused where no page has the frame, or the index is past the page.
    fn place(&self, frame: u32, index: u32) -> Result<usize, Fault>
        ensures { Answers (byte_rules (means self.now) frame index) (λ at. IsByte self.now frame index at) result }
    {
        if index >= 4096 || !self.frames.is_used(frame) {
            return Err(refusal(Reason::FrameUnused, u64::from(frame)));
        }
        Ok(frame as usize * 4096 + index as usize)
    }
}

impl<'a> Space for RegionList<'a> {
    ghost meaning = { means };

    ghost sound = { λ t _. means_sound t };

    fn bounds(&self) -> Bounds {
        Bounds {
            first: self.figures.first(),
            count: self.figures.count(),
            frames: self.frames.total,
        }
    }

    // The memory stays as it is.
    fn clear(&mut self)
        ensures step { Step always means self.old self.new Cleared }
        ensures memory { memory_of self.new ≡ memory_of self.old }
    {
        self.runs.clear();
        self.frames.release_all();
    }

    // The memory stays as it is.
    fn look(&mut self, page: u32) -> Option<Mapping>
        ensures step { Step always means self.old self.new (Looks page result) }
        ensures memory { memory_of self.new ≡ memory_of self.old }
    {
        let i = self.runs.holding(page)?;
        Some(self.mapping(i, page))
    }

    // A refusal leaves the memory as it was.
    fn map(&mut self, page: u32, rights: u8) -> Result<(), Fault>
        ensures step { Step always means self.old self.new (Maps page rights result) }
        ensures refused { OnErr result (memory_of self.new ≡ memory_of self.old) }
    {
        self.check_window(page)?;
        if self.runs.holding(page).is_some() {
            return Err(page_refusal(Reason::PageMapped, page));
        }
        let frame = self.frames.first_free().ok_or(refusal(Reason::NoRoom, 0))?;
        if !is_lawful(rights) {
            return Err(refusal(Reason::RightsNumber, u64::from(rights)));
        }
        wipe(self.memory, frame as usize * 4096, 4096);
        self.runs.add(page, Mapping { frame, rights });
        // The frame that `first_free` named.
        self.frames.take(page);
        Ok(())
    }

    // A refusal leaves the memory as it was.
    fn unmap(&mut self, page: u32) -> Result<(), Fault>
        ensures step { Step always means self.old self.new (Unmaps page result) }
        ensures refused { OnErr result (memory_of self.new ≡ memory_of self.old) }
    {
        self.check_window(page)?;
        let Some(i) = self.runs.holding(page) else {
            return Err(page_refusal(Reason::PageUnmapped, page));
        };
        let frame = self.mapping(i, page).frame;
        self.runs.cut(i, page);
        self.frames.give(frame);
        Ok(())
    }

    fn peek(&self, frame: u32, index: u32) -> Result<u8, Fault> {
        Ok(self.memory[self.place(frame, index)?])
    }

    // A refusal leaves the memory as it was.
    fn poke(&mut self, frame: u32, index: u32, byte: u8) -> Result<(), Fault>
        ensures step { Step always means self.old self.new (Pokes frame index byte result) }
        ensures refused { OnErr result (memory_of self.new ≡ memory_of self.old) }
    {
        let at = self.place(frame, index)?;
        self.memory[at] = byte;
        Ok(())
    }
}
