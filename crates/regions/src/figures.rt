// The figures of a region list.
ghost use Rattle.std.specs.Prelude.{◌≡◌, ◌≤◌};
ghost use Rattle.regions.specs.Setup.{first, count};

// The gigabyte with which the window begins, and how many times 512 pages it has.
#[derive(Clone, Copy, PartialEq, Eq, Debug, Default)]
pub struct Figures {
    pub gigabyte: u32,
    pub leaves: u32,
}

impl Figures {
    // The first page of the window.
    pub(crate) fn first(self) -> u32
        requires { self.gigabyte ≤ 255 }
        ensures { result ≡ first self }
    {
        262144 * self.gigabyte
    }

    // The number of pages in the window.
    pub(crate) fn count(self) -> u32
        requires { self.leaves ≤ 512 }
        ensures { result ≡ count self }
    {
        512 * self.leaves
    }
}
