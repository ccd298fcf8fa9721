// The space: lent memory, the runs of its mapped pages, its frames, and what always holds of them.
ghost use Rattle.space.specs.Frames.{pool};
ghost use Rattle.regions.specs.Runs.{in_use, slots};
ghost use Rattle.regions.specs.Invariants.{Kept};

mod calls;
mod setup;

use crate::figures::Figures;
use crate::runs::Runs;
use space::frames::Frames;

// Frame f is frame f of the memory.
#[derive(Drop)]
pub struct RegionList<'a> {
    memory: &'a mut [u8],
    runs: Runs<'a>,
    frames: Frames<'a>,
    figures: Figures,
    ghost kept: { Kept figures memory.now (in_use runs) (slots runs) (pool frames) },
}
