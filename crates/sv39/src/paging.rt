// An address space in Sv39 tables over lent memory: root table, middle table and leaf tables first, then the data frames.
ghost use Rattle.space.specs.Frames.{pool};
ghost use Rattle.sv39.specs.Invariants.{Kept};

mod calls;
mod setup;

use crate::figures::Figures;
use crate::tables::Tables;
use space::frames::Frames;

#[derive(Drop)]
pub struct Sv39<'a> {
    tables: Tables<'a>,
    frames: Frames<'a>,
    figures: Figures,
    ghost kept: { Kept figures tables.memory.now (pool frames) },
}
