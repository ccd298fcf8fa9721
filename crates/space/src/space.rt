// What every address space is. A contract speaks of the meaning alone.
ghost use Rattle.space.specs.Meaning.{Meaning, Sound};
ghost use Rattle.space.specs.Calls.{Step, Bounded, Cleared, Looks, Maps, Unmaps, Peeks, Pokes};

use crate::parts::{Bounds, Mapping};
use faults::fault::Fault;

pub trait Space {
    // What holds of a space from its making on: every making ensures it, every call keeps it.
    ghost valid: { Self → Type 0 } = { λ _. Unit {0} };

    // What the space means.
    ghost meaning: { Self → Meaning };

    // A valid space is sound.
    ghost sound: { (x : Self) → valid x → Sound (meaning x) };

    // The first page, the page count and the number of frames.
    fn bounds(&self) -> Bounds
        ensures { valid self.now → Bounded result (meaning self.now) };

    // Unmaps every page.
    fn clear(&mut self)
        ensures { Step valid meaning self.old self.new Cleared };

    // The frame and rights of a page, where it is mapped.
    fn look(&mut self, page: u32) -> Option<Mapping>
        ensures { Step valid meaning self.old self.new (Looks page result) };

    // Maps a page with these rights to a frame of no other page, filled with zeros.
    fn map(&mut self, page: u32, rights: u8) -> Result<(), Fault>
        ensures { Step valid meaning self.old self.new (Maps page rights result) };

    // Unmaps a page.
    fn unmap(&mut self, page: u32) -> Result<(), Fault>
        ensures { Step valid meaning self.old self.new (Unmaps page result) };

    // The byte at an index of a frame that a page has.
    fn peek(&self, frame: u32, index: u32) -> Result<u8, Fault>
        ensures { valid self.now → Peeks frame index result (meaning self.now) };

    // Puts a byte at an index of a frame that a page has.
    fn poke(&mut self, frame: u32, index: u32, byte: u8) -> Result<(), Fault>
        ensures { Step valid meaning self.old self.new (Pokes frame index byte result) };
}
