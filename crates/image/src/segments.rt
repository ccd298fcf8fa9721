// The segments of a planned file.
ghost use Rattle.std.specs.Prelude.{◌≡◌, ◌≤◌, length};

use crate::ranges::PageRange;

// A load segment at its bias: the pages that it covers and their rights, its memory, and its bytes in the file.
#[derive(Clone, Copy, PartialEq, Eq, Debug, Default)]
pub struct Segment {
    pub pages: PageRange,
    // A sum of bits, as in the file's flags. An enum of the sums would be no plainer, and the library's `bitflags` would ask more of callers.
    pub rights: u8,
    pub address: u64,
    pub memsz: u64,
    pub offset: u64,
    pub filesz: u64,
}

// At most 16 segments. There is no heap here: the list has its memory in it.
// An array and a count, for `Segments` is `Copy`, and the library's `ArrayVec` is not.
#[derive(Clone, Copy)]
pub struct Segments {
    pub(crate) list: [Segment; 16],
    pub(crate) count: usize,
    ghost few: { count ≤ 16 },
    ghost room: { length list ≡ 16 },
}
