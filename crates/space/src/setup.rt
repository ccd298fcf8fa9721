// Tests of the figures of which an address space is set up.
ghost use Rattle.std.specs.Prelude.{Decides};
ghost use Rattle.space.specs.Setups.{WholeFrames, Window as LawfulWindow};

// Whether so many bytes of memory are 0 to 65,536 whole frames.
pub fn is_whole(bytes: usize) -> bool
    ensures { Decides result (WholeFrames bytes) }
{
    bytes % 4096 == 0 && bytes / 4096 <= 65536
}

// Whether a window may begin at this gigabyte and have this many tables of 512 pages.
pub fn is_window(gigabyte: u32, leaves: u32) -> bool
    ensures { Decides result (LawfulWindow gigabyte leaves) }
{
    gigabyte <= 255 && (1..=512).contains(&leaves)
}
