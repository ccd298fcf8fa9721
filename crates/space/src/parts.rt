// What the calls on an address space take and answer.
ghost use Rattle.std.specs.Prelude.{◌≡◌, ◌*◌, Decides};
ghost use Rattle.space.specs.Meaning.{Lawful};

use faults::fault::{Fault, Layer, Reason};

// What a page is mapped to. The rights are a number and no enum: the interface counts them so, and what `map` is asked for may be any number.
#[derive(Clone, Copy, PartialEq, Eq, Debug)]
pub struct Mapping {
    pub frame: u32,
    pub rights: u8,
}

// The first page, the number of pages, the number of frames.
#[derive(Clone, Copy, PartialEq, Eq, Debug)]
pub struct Bounds {
    pub first: u32,
    pub count: u32,
    pub frames: u32,
}

// The rights that a page may have: execute, read, both, or read and write.
pub fn is_lawful(rights: u8) -> bool
    ensures { Decides result (Lawful rights) }
{
    matches!(rights, 1 | 4 | 5 | 6)
}

// A refusal by an address space.
pub fn refusal(reason: Reason, place: u64) -> Fault
    ensures { result ≡ record { reason = reason; layer = Layer.Space; «record» = 0; place = place } }
{
    Fault::new(Layer::Space, reason, place)
}

// The same, of a page, which it names by its address.
pub fn page_refusal(reason: Reason, page: u32) -> Fault
    ensures { result ≡ record { reason = reason; layer = Layer.Space; «record» = 0; place = page * 4096 } }
{
    refusal(reason, u64::from(page) * 4096)
}
