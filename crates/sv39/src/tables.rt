// Tables in lent memory.
ghost use Rattle.std.specs.Prelude.{◌≡◌, ◌+◌, ◌*◌, ◌^◌, ◌<◌, ◌≤◌, length, slice_set};
ghost use Rattle.space.specs.Memory.{Bytes, Zeroed};
ghost use Rattle.sv39.specs.Tables.{bottom, word};
ghost use Rattle.sv39.specs.Writes.{Written, Built};

use crate::entry::pointer_to;
use crate::figures::Figures;
use crate::walk::u64_at;
use byteorder::{ByteOrder, LittleEndian};
use space::memory::wipe;

// The memory, which begins with the tables. Entries are counted over all tables, 512 to a table.
#[derive(Drop)]
pub struct Tables<'a> {
    pub(crate) memory: &'a mut [u8],
    ghost bytes: { Bytes memory.now },
}

impl<'a> Tables<'a> {
    // Entry k.
    pub(crate) fn entry(&self, k: usize) -> u64
        requires { 8 * k + 8 ≤ length self.now.memory.now }
        ensures { result ≡ word self.now.memory.now k }
    {
        u64_at(self.memory, 8 * k)
    }

    // Makes entry k the value.
    pub(crate) fn set_entry(&mut self, k: usize, value: u64)
        requires { 8 * k + 8 ≤ length self.old.memory.now }
        ensures { Written k value self.old.memory.now self.new.memory.now }
    {
        LittleEndian::write_u64(&mut self.memory[8 * k..8 * k + 8], value);
    }

    // Makes n bytes zero.
    pub(crate) fn zero(&mut self, at: usize, n: usize)
        requires { at + n ≤ length self.old.memory.now }
        ensures { Zeroed at n self.old.memory.now self.new.memory.now }
    {
        wipe(self.memory, at, n);
    }

    // Makes the tables: the root's entry for the gigabyte points to the middle table, and that to the leaf tables.
    pub(crate) fn build(&mut self, figures: Figures)
        requires held { (figures.leaves + 2) * 4096 ≤ length self.old.memory.now }
        requires window { figures.gigabyte < 512 }
        requires high { figures.leaves ≤ 512 }
        requires reach { bottom figures + 2 + figures.leaves ≤ 2 ^ 44 }
        ensures { Built figures figures.leaves self.old.memory.now self.new.memory.now }
    {
        let page = figures.bottom();
        self.zero(0, (figures.leaves as usize + 2) * 4096);
        self.set_entry(figures.gigabyte as usize, pointer_to(page + 1));
        // By number: what chunks_exact_mut lends is not known to a proof after the write.
        for i in 0..figures.leaves {
            self.set_entry(512 + i as usize, pointer_to(page + 2 + u64::from(i)));
        }
    }

    // Puts a byte at a place.
    pub(crate) fn put(&mut self, at: usize, byte: u8)
        requires { at < length self.old.memory.now }
        ensures { self.new.memory.now ≡ slice_set self.old.memory.now at byte }
    {
        self.memory[at] = byte;
    }
}
