// Plans of ELF files: which pages will be mapped with which rights, and which byte will stand where, and why.
#![tactic(auto)]

mod bytes;
mod checked;
mod gather;
pub mod laws;
pub mod origin;
mod placed;
pub mod plan;
pub mod planning;
mod prescribed;
pub mod ranges;
pub mod rights;
pub mod search;
pub mod segments;
mod span;
mod trace;
pub mod words;
