// The set-up of a region list, and what it shows as a whole.
ghost use Rattle.std.specs.Prelude.{◌≡◌, length};
ghost use Rattle.std.specs.List.{slice_get};
ghost use Rattle.space.specs.Setups.{Checks};
ghost use Rattle.regions.specs.Setup.{LawfulFigures};
ghost use Rattle.regions.specs.Spaces.{means, runs_of, Lists, Made, Unmade};

use crate::figures::Figures;
use crate::list::RegionList;
use crate::run::Run;
use crate::runs::Runs;
use faults::fault::{Fault, Reason};
use space::frames::Frames;
use space::parts::refusal;
use space::setup::{is_whole, is_window};
use space::space::Space;

impl<'a> RegionList<'a> {
    // Whether a space can be set up: the memory's length, the figures, the lengths of the buffers for runs and for frames.
    pub fn check(memory: usize, figures: Figures, runs: usize, free: usize) -> Result<(), Fault>
        ensures { Checks (LawfulFigures memory figures runs free) result }
    {
        let frames = memory / 4096;
        let lawful = is_whole(memory)
            && is_window(figures.gigabyte, figures.leaves)
            && frames <= runs
            && frames <= free;
        if !lawful {
            return Err(refusal(Reason::SpaceFigures, 0));
        }
        Ok(())
    }

    // A space without pages and frames. Memory and buffers stay as they are.
    fn nothing(memory: &'a mut [u8], runs: &'a mut [Run], free: &'a mut [u32]) -> RegionList<'a>
        ensures { Unmade memory.old runs.old free.old result }
    {
        RegionList {
            memory,
            runs: Runs::new(runs),
            frames: Frames::new(free, 0),
            figures: Figures::default(),
        }
    }

    // A space of lawful figures, with no page mapped.
    fn build(
        memory: &'a mut [u8],
        figures: Figures,
        runs: &'a mut [Run],
        free: &'a mut [u32],
    ) -> RegionList<'a>
        requires { LawfulFigures (length memory.old) figures (length runs.old) (length free.old) }
        ensures { Made (length memory.old) figures result }
    {
        let total = (memory.len() / 4096) as u32;
        RegionList {
            memory,
            runs: Runs::new(runs),
            frames: Frames::new(free, total),
            figures,
        }
    }

    // A space with no page mapped. Of figures that the check refuses it has no page and no frame, and leaves memory and buffers alone.
    pub fn new(
        memory: &'a mut [u8],
        figures: Figures,
        runs: &'a mut [Run],
        free: &'a mut [u32],
    ) -> RegionList<'a>
        ensures valid { ⟦<RegionList<'a> as Space>⟧.valid result }
        ensures made { LawfulFigures (length memory.old) figures (length runs.old) (length free.old) → Made (length memory.old) figures result }
        ensures unmade { (LawfulFigures (length memory.old) figures (length runs.old) (length free.old) → ⊥) → Unmade memory.old runs.old free.old result }
    {
        // `new` cannot fail: the refusal is the check's to give, and a space of refused figures has an empty window and no frame.
        match Self::check(memory.len(), figures, runs.len(), free.len()) {
            Ok(()) => Self::build(memory, figures, runs, free),
            Err(_) => Self::nothing(memory, runs, free),
        }
    }

    // The figures of the set-up; zeros where that was refused.
    pub fn figures(&self) -> Figures
        ensures { result ≡ self.now.figures }
    {
        self.figures
    }

    // Run i, where there is one. The runs ascend, are disjoint, and hold exactly the mapped pages, with their frames and rights.
    pub fn run(&self, i: u32) -> Option<Run>
        ensures run { result ≡ slice_get (runs_of self.now) i }
        ensures lists { Lists (means self.now) (runs_of self.now) }
    {
        self.runs.as_slice().get(i as usize).copied()
    }
}
