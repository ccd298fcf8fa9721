// The set-up of a space in Sv39 tables, and what it shows as a whole.
ghost use Rattle.std.specs.Prelude.{◌≡◌, ◌<◌, length};
ghost use Rattle.space.specs.Setups.{Checks};
ghost use Rattle.sv39.specs.Tables.{Tables as Tabled, Shows};
ghost use Rattle.sv39.specs.Setup.{LawfulFigures, Snapshot};
ghost use Rattle.sv39.specs.Spaces.{memory_of, means, Made, Unmade};
ghost use Rattle.sv39.specs.Walks.{Ends};

use crate::entry::Walk;
use crate::figures::Figures;
use crate::paging::Sv39;
use crate::tables::Tables;
use crate::walk::walk;
use faults::fault::{Fault, Reason};
use space::frames::Frames;
use space::parts::refusal;
use space::setup::{is_whole, is_window};
use space::space::Space;

impl<'a> Sv39<'a> {
    // Whether a space can be set up: the memory's length, the figures, the length of the buffer for frames.
    pub fn check(memory: usize, figures: Figures, free: usize) -> Result<(), Fault>
        ensures { Checks (LawfulFigures memory figures free) result }
    {
        let frames = memory / 4096;
        let lawful = is_whole(memory)
            && is_window(figures.gigabyte, figures.leaves)
            && frames <= free
            && figures.leaves as usize + 2 <= frames
            && figures.base % 4096 == 0
            && figures.base <= (1 << 56) - memory as u64;
        if !lawful {
            return Err(refusal(Reason::SpaceFigures, 0));
        }
        Ok(())
    }

    // A space without pages and frames. Memory and buffer stay as they are.
    fn nothing(memory: &'a mut [u8], free: &'a mut [u32]) -> Sv39<'a>
        ensures { Unmade memory.old free.old result }
    {
        Sv39 {
            tables: Tables { memory },
            frames: Frames::new(free, 0),
            figures: Figures::default(),
        }
    }

    // A space of lawful figures, with no page mapped.
    fn build(memory: &'a mut [u8], figures: Figures, free: &'a mut [u32]) -> Sv39<'a>
        requires { LawfulFigures (length memory.old) figures (length free.old) }
        ensures { Made (length memory.old) figures result }
    {
        let total = (memory.len() / 4096) as u32 - (figures.leaves + 2);
        let mut tables = Tables { memory };
        tables.build(figures);
        Sv39 {
            tables,
            frames: Frames::new(free, total),
            figures,
        }
    }

    // A space with no page mapped. Of figures that the check refuses it has no page and no frame, and leaves memory and buffer alone.
    pub fn new(memory: &'a mut [u8], figures: Figures, free: &'a mut [u32]) -> Sv39<'a>
        ensures valid { ⟦<Sv39<'a> as Space>⟧.valid result }
        ensures made { LawfulFigures (length memory.old) figures (length free.old) → Made (length memory.old) figures result }
        ensures unmade { (LawfulFigures (length memory.old) figures (length free.old) → ⊥) → Unmade memory.old free.old result }
    {
        // `new` cannot fail: the refusal is the check's to give, and a space of refused figures has no leaf table.
        match Sv39::check(memory.len(), figures, free.len()) {
            Ok(()) => Sv39::build(memory, figures, free),
            Err(_) => Sv39::nothing(memory, free),
        }
    }

    // The figures of the set-up; zeros where that was refused.
    pub fn figures(&self) -> Figures
        ensures { result ≡ self.now.figures }
    {
        self.figures
    }

    // The walk of an address from the root table, as the architecture has it. From an accepted set-up on, the walk of every address below 2^39
    // ends at the frame and the rights of its page, or at a 0 entry where that is not mapped; and every entry of the tables is as it should be.
    pub fn walk(&self, address: u64) -> Walk
        ensures ends { Ends (memory_of self.now) self.now.figures.base address result }
        ensures shows { 0 < self.now.figures.leaves → Shows self.now.figures (memory_of self.now) (means self.now).page }
        ensures tables { 0 < self.now.figures.leaves → Tabled self.now.figures (memory_of self.now) (means self.now).page }
    {
        walk(self.tables.memory, self.figures.base, address)
    }

    // Copies the raw memory to the start of a buffer and answers its length; refused where the buffer is shorter, which then stays as it was.
    pub fn snapshot(&self, out: &mut [u8]) -> Result<u64, Fault>
        ensures { Snapshot result (memory_of self.now) out.old out.new }
    {
        let length = self.tables.memory.len();
        if out.len() < length {
            return Err(refusal(Reason::OutputLength, length as u64));
        }
        out[..length].copy_from_slice(self.tables.memory);
        Ok(length as u64)
    }
}
