// A reader of ELF files for RISC-V: it checks a file against the rules of the format, and answers its headers and relocations.
#![tactic(auto)]

pub mod bytes;
mod dynamic;
mod identity;
pub mod kinds;
pub mod layout;
pub mod opened;
pub mod records;
mod relocations;
mod segments;
mod stages;
mod tables;
