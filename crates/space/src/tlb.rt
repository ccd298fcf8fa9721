// A software-filled TLB of sixteen entries in front of any address space.
ghost use Rattle.std.specs.Prelude.{◌≡◌, ℕ, Some, None, slice_index_or};
ghost use Rattle.space.specs.declared.parts.Mapping.{Mapping as Translation};
ghost use Rattle.space.specs.Calls.{Step, Looks};
ghost use Rattle.space.specs.Cache.{Placed, Valid, Holds, OneChanged};

use crate::parts::{Bounds, Mapping};
use crate::space::Space;
use faults::fault::Fault;

// A page with its frame and rights.
#[derive(Clone, Copy, PartialEq, Eq, Debug)]
pub struct Entry {
    pub page: u32,
    pub mapping: Mapping,
}

// The entry of a page stands at its place, the page's number modulo 16.
#[derive(Drop)]
pub struct Tlb<'s, S: Space> {
    below: &'s mut S,
    entries: [Option<Entry>; 16],
    ghost placed: { Placed entries },
}

impl<'s, S: Space> Tlb<'s, S> {
    // An empty TLB in front of a space.
    pub fn new(below: &'s mut S) -> Tlb<'s, S>
        ensures same { result.below.now ≡ below.old }
        ensures empty { (k : ℕ) → slice_index_or result.entries k None ≡ None }
        ensures valid { S.Space.valid below.old → Valid S.Space.valid S.Space.meaning result.below.now result.entries }
    {
        Tlb {
            below,
            entries: [None; 16],
        }
    }
}

impl<'s, S: Space> Space for Tlb<'s, S> {
    ghost valid = { λ t. Valid S.Space.valid S.Space.meaning t.below.now t.entries };

    ghost meaning = { λ t. S.Space.meaning t.below.now };

    ghost sound = { λ t v. S.Space.sound t.below.now v.0 };

    fn bounds(&self) -> Bounds {
        self.below.bounds()
    }

    fn clear(&mut self) {
        self.below.clear();
        self.entries = [None; 16];
    }

    // After a look at a mapped page an entry holds it, and at most one entry has changed. An impl that says more than its trait says that again,
    // and cannot name the trait's own members there.
    fn look(&mut self, page: u32) -> Option<Mapping>
        ensures step { Step (λ t. Valid S.Space.valid S.Space.meaning t.below.now t.entries) (λ t. S.Space.meaning t.below.now) self.old self.new (Looks page result) }
        ensures holds { (h : Translation) → result ≡ Some h → Holds self.new.entries page h }
        ensures one { OneChanged self.old.entries self.new.entries }
    {
        let slot = (page % 16) as usize;
        if let Some(hit) = self.entries[slot]
            && hit.page == page
        {
            return Some(hit.mapping);
        }
        let mapping = self.below.look(page)?;
        self.entries[slot] = Some(Entry { page, mapping });
        Some(mapping)
    }

    fn map(&mut self, page: u32, rights: u8) -> Result<(), Fault> {
        self.below.map(page, rights)
    }

    fn unmap(&mut self, page: u32) -> Result<(), Fault> {
        self.entries[(page % 16) as usize] = None;
        self.below.unmap(page)
    }

    fn peek(&self, frame: u32, index: u32) -> Result<u8, Fault> {
        self.below.peek(frame, index)
    }

    fn poke(&mut self, frame: u32, index: u32, byte: u8) -> Result<(), Fault> {
        self.below.poke(frame, index, byte)
    }
}
