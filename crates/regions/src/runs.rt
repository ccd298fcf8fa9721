// A lent buffer of runs, of which the first so many are in use.
ghost use Rattle.std.specs.Prelude.{◌≤◌, length};

mod edits;
mod search;

use crate::run::Run;

// That the runs in use are in order is no ghost field: `set`, `insert` and `remove` would each have to ask it of the list that they leave, three clauses for the three that ask for it now.
#[derive(Drop)]
pub struct Runs<'a> {
    buffer: &'a mut [Run],
    used: usize,
    ghost fits: { used ≤ length buffer.now },
}
