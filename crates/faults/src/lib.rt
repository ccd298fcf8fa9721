// What every layer of the loader says when it refuses: the reasons with their numbers, the layers, and the fault itself.
#![tactic(auto)]

pub mod fault;
pub mod words;
