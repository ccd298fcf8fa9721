// An address space as a list of runs of pages, over lent memory.
#![tactic(auto)]

pub mod figures;
pub mod list;
pub mod run;
pub mod runs;
