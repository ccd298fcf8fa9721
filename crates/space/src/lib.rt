// Address spaces: what one means, what each call does to that, and a TLB in front of any.
#![tactic(auto)]

pub mod frames;
pub mod memory;
pub mod parts;
pub mod setup;
pub mod space;
pub mod tlb;
