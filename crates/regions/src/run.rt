// Runs of pages with equal rights and consecutive frames.
ghost use Rattle.std.specs.Prelude.{◌≡◌, ◌+◌, ◌^◌, ◌<◌, ◌≤◌, Decides};
ghost use Rattle.regions.specs.Runs.{Holds, Meets, mapping_in};
ghost use Rattle.regions.specs.Changes.{single, joined, before, after};

use space::parts::Mapping;

// Pages from `first` on, with frames from `frame` on.
#[derive(Clone, Copy, PartialEq, Eq, Debug, Default)]
pub struct Run {
    pub first: u32,
    pub count: u32,
    pub rights: u8,
    pub frame: u32,
}

impl Run {
    // The run of one page.
    pub(crate) fn single(page: u32, mapping: Mapping) -> Run
        ensures { result ≡ single page mapping }
    {
        Run {
            first: page,
            count: 1,
            rights: mapping.rights,
            frame: mapping.frame,
        }
    }

    // Whether the run holds a page.
    pub(crate) fn holds(self, page: u32) -> bool
        ensures { Decides result (Holds self page) }
    {
        self.first <= page && page - self.first < self.count
    }

    // The frame and rights of a page of the run.
    pub(crate) fn mapping(self, page: u32) -> Mapping
        requires held { Holds self page }
        requires fits { self.frame + self.count ≤ 2 ^ 32 }
        ensures { result ≡ mapping_in self page }
    {
        Mapping {
            frame: self.frame + (page - self.first),
            rights: self.rights,
        }
    }

    // Whether another run goes on where this one ends.
    pub(crate) fn meets(self, next: Run) -> bool
        ensures { Decides result (Meets self next) }
    {
        self.first.checked_add(self.count) == Some(next.first)
            && self.frame.checked_add(self.count) == Some(next.frame)
            && next.rights == self.rights
    }

    // This run with the one that goes on where it ends.
    pub(crate) fn joined(self, next: Run) -> Run
        requires { self.count + next.count < 2 ^ 32 }
        ensures { result ≡ joined self next }
    {
        Run {
            count: self.count + next.count,
            ..self
        }
    }

    // What the run has before a page of its own.
    pub(crate) fn before(self, page: u32) -> Run
        requires { Holds self page }
        ensures { result ≡ before self page }
    {
        Run {
            count: page - self.first,
            ..self
        }
    }

    // What the run has behind a page of its own.
    pub(crate) fn after(self, page: u32) -> Run
        requires held { Holds self page }
        requires ends { self.first + self.count < 2 ^ 32 }
        requires fits { self.frame + self.count < 2 ^ 32 }
        ensures { result ≡ after self page }
    {
        let gone = page + 1 - self.first;
        Run {
            first: page + 1,
            count: self.count - gone,
            frame: self.frame + gone,
            ..self
        }
    }
}
