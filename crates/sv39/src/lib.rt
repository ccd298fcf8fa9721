// Sv39 translation: the entries of page tables, and the architecture's walk through them.
#![tactic(auto)]

pub mod entry;
pub mod figures;
pub mod laws;
pub mod paging;
pub mod tables;
pub mod walk;
