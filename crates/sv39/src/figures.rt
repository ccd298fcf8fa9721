// The figures of a space in Sv39 tables.
ghost use Rattle.std.specs.Prelude.{◌≡◌, ◌≤◌};
ghost use Rattle.sv39.specs.Tables.{first, count, bottom, origin, place};

// The physical address of the memory's first byte, the gigabyte with which the window begins, and the number of leaf tables.
#[derive(Clone, Copy, PartialEq, Eq, Debug, Default)]
pub struct Figures {
    pub base: u64,
    pub gigabyte: u32,
    pub leaves: u32,
}

impl Figures {
    // The first page of the window.
    pub(crate) fn first(self) -> u32
        requires { self.gigabyte ≤ 255 }
        ensures { result ≡ first self }
    {
        262144 * self.gigabyte
    }

    // The number of pages in the window.
    pub(crate) fn count(self) -> u32
        requires { self.leaves ≤ 512 }
        ensures { result ≡ count self }
    {
        512 * self.leaves
    }

    // The physical page of the memory's first byte.
    pub(crate) fn bottom(self) -> u64
        ensures { result ≡ bottom self }
    {
        self.base / 4096
    }

    // The physical page of data frame 0, behind the tables.
    pub(crate) fn origin(self) -> u64
        ensures { result ≡ origin self }
    {
        self.bottom() + u64::from(self.leaves) + 2
    }

    // Where a data frame begins in the memory.
    pub(crate) fn start(self, frame: u32) -> usize
        ensures { result ≡ place self frame 0 }
    {
        (self.leaves as usize + 2 + frame as usize) * 4096
    }
}
