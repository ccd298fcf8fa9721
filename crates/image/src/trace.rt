// Where the bytes of an image come from.
ghost use Rattle.std.specs.Prelude.{◌≡◌, ℕ, ◌+◌, ◌<◌, length, None, MatchOption, slice_index_or};
ghost use Rattle.elf.specs.Layouts.{elf64};
ghost use Rattle.elf.specs.Searches.{Highest};
ghost use Rattle.elf.specs.Dynamic.{relocation_in, relocation_table};
ghost use Rattle.image.specs.Prescribed.{reaches};
ghost use Rattle.image.specs.Origins.{Reaches, Unreached, ComesFrom, Traced};
ghost use Rattle.image.specs.Spans.{Kept};

use crate::origin::Origin;
use crate::prescribed::Image;
use crate::span::Span;
use elf::bytes::holds;
use elf::kinds::RelocationType;
use elf::layout::{ELF64, PAGE};

impl Image<'_> {
    // Whether the relocation `i` reaches an address. The bound is on the argument here too.
    fn reaches(&self, i: u32, address: u64) -> bool
        requires { i < self.now.table.count }
        ensures { result ≡ reaches elf64 self.now.bias address (relocation_in elf64 self.now.opened.file.now (relocation_table elf64 self.now.opened.file.now) i) }
    {
        let r = self.relocation(i);
        r.is(RelocationType::Relative) && holds(self.bias + r.offset, ELF64.word as u64, address, 1)
    }

    // The last relocation that reaches an address.
    fn last_reaching(&self, address: u64) -> Option<u32>
        ensures { MatchOption result (Unreached elf64 self.now.opened.file.now self.now.bias address) (λ i. Highest (relocation_table elf64 self.now.opened.file.now).count (Reaches elf64 self.now.opened.file.now self.now.bias address) i) }
    {
        (0..self.table.count)
            .rev()
            .find(|i| self.reaches(*i, address))
    }

    // The origin of the byte at an address on a page of the image.
    fn origin_on_page(&self, address: u64) -> Origin
        ensures { ComesFrom elf64 self.now.opened.file.now self.now.bias address result }
    {
        if let Some(i) = self.last_reaching(address) {
            Origin::Word(i)
        } else if let Some(offset) = self.file_offset(address) {
            Origin::File(offset)
        } else if self.segments.with_memory(address).is_some() {
            Origin::Inside
        } else {
            Origin::Around
        }
    }

    // The origin of the byte at an address, where a segment covers its page.
    pub(crate) fn origin(&self, address: u64) -> Option<Origin>
        ensures { Traced elf64 self.now.opened.file.now self.now.bias address result }
    {
        self.segments.covering(address / PAGE)?;
        Some(self.origin_on_page(address))
    }

    // The origins of the bytes of a span. Past 2^64 there is none.
    pub(crate) fn origins(&self, span: &mut Span<Option<Origin>>)
        ensures kept { Kept span.old span.new }
        ensures traced { (j : ℕ) → j < length span.new.items.now → Traced elf64 self.now.opened.file.now self.now.bias (span.new.address + j) (slice_index_or span.new.items.now j None) }
    {
        span.fill(None, |a| self.origin(a));
    }
}
