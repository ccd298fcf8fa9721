// Searches among a file's segments.
ghost use Rattle.std.specs.Prelude.{◌≡◌, ◌<◌, ◌≤◌, map, find, length, MatchOption, slice_index_or};
ghost use Rattle.std.specs.Option.{option_map};
ghost use Rattle.image.specs.Pages.{page_count};
ghost use Rattle.image.specs.Prescribed.{covers_page, has_file_byte, has_memory};
ghost use Rattle.image.specs.Stages.{FirstBy, listed};

use crate::segments::{Segment, Segments};
use elf::bytes::holds;

impl Segment {
    // Whether the segment covers a page.
    pub(crate) fn covers(&self, page: u64) -> bool
        ensures { result ≡ covers_page page self.now }
    {
        holds(self.pages.first as u64, self.pages.count as u64, page, 1)
    }

    // Whether an address lies in the segment's file bytes.
    pub(crate) fn has_file_byte(&self, address: u64) -> bool
        ensures { result ≡ has_file_byte address self.now }
    {
        holds(self.address, self.filesz, address, 1)
    }

    // Whether an address lies in the segment's memory.
    pub(crate) fn has_memory(&self, address: u64) -> bool
        ensures { result ≡ has_memory address self.now }
    {
        holds(self.address, self.memsz, address, 1)
    }
}

impl Segments {
    // The segments, in ascending order.
    pub fn as_slice(&self) -> &[Segment]
        ensures list { result.now ≡ listed self.now }
        ensures few { length result.now ≤ 16 }
    {
        &self.list[..self.count]
    }

    // How many segments there are.
    pub fn count(&self) -> u32
        ensures { result ≡ length (listed self.now) }
    {
        self.as_slice().len() as u32
    }

    // The segment `i`, where there is one.
    pub fn get(&self, i: u32) -> Option<Segment>
        ensures { MatchOption result (length (listed self.now) ≤ i) (λ s. (i < length (listed self.now)) × (s ≡ slice_index_or (listed self.now) i s)) }
    {
        self.as_slice().get(i as usize).copied()
    }

    // The first segment that passes a test.
    fn first<F: Fn(&Segment) -> bool>(&self, test: F) -> Option<Segment>
        requires { F.IsAlwaysCallable test }
        ensures { FirstBy (λ s b. F.post test s b) (listed self.now) result }
    {
        self.as_slice().iter().find(|s| test(s)).copied()
    }

    // The segment that covers a page.
    pub(crate) fn covering(&self, page: u64) -> Option<Segment>
        ensures { result ≡ find (covers_page page) (listed self.now) }
    {
        self.first(|s| s.covers(page))
    }

    // The segment that has an address among its file bytes.
    pub(crate) fn with_file_byte(&self, address: u64) -> Option<Segment>
        ensures { result ≡ find (has_file_byte address) (listed self.now) }
    {
        self.first(|s| s.has_file_byte(address))
    }

    // The segment that has an address in its memory.
    pub(crate) fn with_memory(&self, address: u64) -> Option<Segment>
        ensures { result ≡ find (has_memory address) (listed self.now) }
    {
        self.first(|s| s.has_memory(address))
    }

    // The rights of a page, where a segment covers it.
    pub fn rights(&self, page: u32) -> Option<u8>
        ensures { result ≡ option_map (λ s. s.rights) (find (covers_page page) (listed self.now)) }
    {
        self.covering(page as u64).map(|s| s.rights)
    }

    // How many pages the segments cover.
    pub fn pages(&self) -> u64
        ensures { result ≡ page_count (map (λ s. s.pages) (listed self.now)) }
    {
        self.as_slice().iter().map(|s| s.pages.count as u64).sum()
    }
}
