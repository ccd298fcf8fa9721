// The bytes of an image.
ghost use Rattle.std.specs.Prelude.{◌≡◌, ◌+◌, ◌-◌, ◌^◌, ◌<◌, ◌≤◌, find, length, None, Some, MatchOption};
ghost use Rattle.elf.specs.Layouts.{elf64};
ghost use Rattle.elf.specs.Dynamic.{relocation_in, relocation_table};
ghost use Rattle.image.specs.Prescribed.{segments_of, has_file_byte, byte_after, image_of};
ghost use Rattle.image.specs.Spans.{Kept, Holds};
ghost use Rattle.image.specs.declared.segments.Segment.{Segment as Part};

use crate::prescribed::Image;
use crate::span::Span;
use elf::records::Relocation;

impl Image<'_> {
    // Where in the file the byte stands that the file puts at an address.
    pub(crate) fn file_offset(&self, address: u64) -> Option<u64>
        ensures { MatchOption result (find (has_file_byte address) (segments_of elf64 self.now.opened.file.now self.now.bias) ≡ None) (λ o. (o < length self.now.opened.file.now) × ((s : Part) × (find (has_file_byte address) (segments_of elf64 self.now.opened.file.now self.now.bias) ≡ Some s) × (o ≡ s.offset + (address - s.address)))) }
    {
        let segment = self.segments.with_file_byte(address)?;
        Some(segment.offset + (address - segment.address))
    }

    // The byte that the file puts at an address.
    fn file_byte(&self, address: u64) -> u8
        ensures { result ≡ byte_after elf64 self.now.opened.file.now self.now.bias 0 address }
    {
        let file = self.opened.bytes();
        self.file_offset(address)
            .map_or(0, |offset| file[offset as usize])
    }

    // Fills a span with the bytes that the file puts there. Past 2^64 it puts none.
    fn fill(&self, span: &mut Span<u8>)
        ensures kept { Kept span.old span.new }
        ensures filled { Holds span.new (byte_after elf64 self.now.opened.file.now self.now.bias 0) }
    {
        span.fill(0, |a| self.file_byte(a));
    }

    // The relocation `i` of the file's table. The bound is on the argument, as with the reader's records.
    pub(crate) fn relocation(&self, i: u32) -> Relocation
        requires { i < self.now.table.count }
        ensures same { result ≡ relocation_in elf64 self.now.opened.file.now (relocation_table elf64 self.now.opened.file.now) i }
        ensures ends { result.kind ≡ 3 → self.now.bias + result.offset + 8 ≤ 2 ^ 38 }
    {
        // Reckoned here: the reader's `Table::offset` asks for a table without a wrap, and a public function asks nothing.
        let offset = self.table.first + self.table.size * i as u64;
        self.opened.relocation_at(offset).unwrap()
    }

    // Puts the words of the file's relocations, in the table's order, as far as the span holds them.
    fn relocate(&self, span: &mut Span<u8>)
        requires { Holds span.old (byte_after elf64 self.now.opened.file.now self.now.bias 0) }
        ensures kept { Kept span.old span.new }
        ensures relocated { Holds span.new (byte_after elf64 self.now.opened.file.now self.now.bias self.now.table.count) }
    {
        for r in (0..self.table.count).map(|i| self.relocation(i)) {
            span.relocate(self.bias, &r);
        }
    }

    // Fills a span with its bytes.
    pub(crate) fn bytes(&self, span: &mut Span<u8>)
        ensures kept { Kept span.old span.new }
        ensures bytes { Holds span.new (image_of elf64 self.now.opened.file.now self.now.bias).byte }
    {
        self.fill(span);
        self.relocate(span);
    }
}
