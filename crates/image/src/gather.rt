// The segments of a file whose rules are clear, from its program headers.
ghost use Rattle.std.specs.Prelude.{◌≡◌, ◌+◌, ◌^◌, ◌<◌, ◌≤◌, [], ◌∷◌, ◌++◌, map};
ghost use Rattle.elf.specs.Layouts.{elf64};
ghost use Rattle.image.specs.Pages.{Ascending};
ghost use Rattle.image.specs.Prescribed.{segment_of, segments_of};
ghost use Rattle.image.specs.Stages.{listed};

use crate::placed::Placed;
use crate::ranges::PageRange;
use crate::rights::rights_of;
use crate::segments::{Segment, Segments};
use elf::kinds::HeaderType;
use elf::layout::PAGE;
use elf::records::ProgramHeader;

fn segment_of(bias: u64, h: ProgramHeader) -> Segment
    requires full { 0 < h.memsz }
    requires ends { bias + h.vaddr + h.memsz ≤ 2 ^ 38 }
    ensures { result ≡ segment_of bias h }
{
    let address = bias + h.vaddr;
    let first = address / PAGE;
    let last = (address + h.memsz - 1) / PAGE;
    Segment {
        pages: PageRange {
            first: first as u32,
            count: (last + 1 - first) as u32,
        },
        rights: rights_of(h.flags),
        address,
        memsz: h.memsz,
        offset: h.offset,
        filesz: h.filesz,
    }
}

// No segment.
impl Default for Segments {
    ghost is_default = { λ s. (listed s ≡ []) × (s.count ≡ 0) };

    fn default() -> Segments {
        Segments {
            list: [Segment::default(); 16],
            count: 0,
        }
    }
}

impl Segments {
    // One segment more.
    fn push(&mut self, segment: Segment)
        requires { self.old.count < 16 }
        ensures listed { listed self.new ≡ listed self.old ++ segment ∷ [] }
        ensures count { self.new.count ≡ self.old.count + 1 }
    {
        let at = self.count;
        self.list[at] = segment;
        self.count = at + 1;
    }
}

impl Placed<'_> {
    // The file's segments at their bias.
    pub(crate) fn segments(&self) -> Segments
        ensures list { listed result ≡ segments_of elf64 self.now.checked.opened.file.now self.now.bias }
        ensures ascending { Ascending (map (λ x. x.pages) (listed result)) }
    {
        let mut segments = Segments::default();
        for h in (0..self.checked.headers()).map(|i| self.checked.header(i)) {
            if h.is(HeaderType::Load) {
                segments.push(segment_of(self.bias, h));
            }
        }
        segments
    }
}
