// The runs in use, and searches among them.
ghost use Rattle.std.specs.Prelude.{◌≡◌, ◌<◌, Some, MatchOption};
ghost use Rattle.std.specs.List.{slice_get};
ghost use Rattle.regions.specs.Runs.{HeldBy, in_use};
ghost use Rattle.regions.specs.Changes.{Unheld, Slot};

use crate::run::Run;
use crate::runs::Runs;

impl<'a> Runs<'a> {
    // The runs in use.
    pub(crate) fn as_slice(&self) -> &[Run]
        ensures { result.now ≡ in_use self.now }
    {
        &self.buffer[..self.used]
    }

    // Run i of those in use.
    pub(crate) fn get(&self, i: usize) -> Run
        requires { i < self.now.used }
        ensures { slice_get (in_use self.now) i ≡ Some result }
    {
        self.buffer[i]
    }

    // The number of the run that holds a page, where one does.
    pub(crate) fn holding(&self, page: u32) -> Option<usize>
        ensures { MatchOption result (Unheld (in_use self.now) page) (λ i. HeldBy (in_use self.now) page i) }
    {
        self.as_slice().iter().position(|run| run.holds(page))
    }

    // The slot for a page that no run holds: that of the first run that begins above the page, or the one behind all runs.
    pub(crate) fn slot_for(&self, page: u32) -> usize
        ensures { Slot (in_use self.now) page result }
    {
        self.as_slice()
            .iter()
            .position(|run| run.first > page)
            .unwrap_or(self.used)
    }
}
