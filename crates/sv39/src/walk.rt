// The walk of an address through page tables in memory.
ghost use Rattle.std.specs.Prelude.{◌≡◌, ◌+◌, ◌-◌, ◌*◌, ◌<◌, ◌≤◌, length, MatchOption};
ghost use Rattle.sv39.specs.Entries.{Says};
ghost use Rattle.sv39.specs.Walks.{le, Inside, Finds, Ends};

use crate::entry::{Entry, Leaf, Walk, is_malformed, is_pointing, page_in, rights_in};
use byteorder::{ByteOrder, LittleEndian};

// The eight bytes from a place on as a number, lowest byte first.
pub(crate) fn u64_at(bytes: &[u8], at: usize) -> u64
    requires { at + 8 ≤ length bytes.now }
    ensures { result ≡ le bytes.now at 8 }
{
    LittleEndian::read_u64(&bytes[at..at + 8])
}

// What an entry of a level says.
pub(crate) fn read_entry(entry: u64, level: u32) -> Entry
    requires { level < 3 }
    ensures { Says level entry result }
{
    if entry == 0 {
        return Entry::Zero;
    }
    if is_malformed(entry) {
        return Entry::Invalid;
    }
    let page = page_in(entry);
    if is_pointing(entry) {
        return Entry::Table(page);
    }
    if page % 512u64.pow(level) != 0 {
        return Entry::Invalid;
    }
    Entry::Leaf(Leaf {
        page,
        rights: rights_in(entry),
    })
}

// The memory that a walk reads, and the physical address of its first byte.
#[derive(Clone, Copy)]
struct PhysicalMemory<'a> {
    bytes: &'a [u8],
    base: u64,
}

impl<'a> PhysicalMemory<'a> {
    // An entry of the table at a physical address, where the table lies in the memory.
    fn entry(&self, table: u64, index: usize) -> Option<u64>
        requires { index < 512 }
        ensures { MatchOption result (Inside self.now.bytes.now self.now.base table → ⊥) (λ e. Inside self.now.bytes.now self.now.base table × (e ≡ le self.now.bytes.now (table - self.now.base + 8 * index) 8)) }
    {
        let start = table.checked_sub(self.base)? as usize;
        let entries = self.bytes.get(start..)?.get(..4096)?;
        Some(u64_at(entries, 8 * index))
    }

    // What the walk of an address finds in the table of a level.
    fn find(&self, address: u64, level: u32, table: u64) -> Entry
        requires { level < 3 }
        ensures { Finds self.now.bytes.now self.now.base address level table result }
    {
        let index = (address >> (12 + 9 * level)) % 512;
        match self.entry(table, index as usize) {
            Some(entry) => read_entry(entry, level),
            None => Entry::Invalid,
        }
    }
}

// The walk of an address from the root table, with which the memory begins. The memory lies at the physical address `base`.
pub fn walk(memory: &[u8], base: u64, address: u64) -> Walk
    ensures { Ends memory.now base address result }
{
    if address >= 1 << 39 {
        return Walk::Fault;
    }
    let memory = PhysicalMemory {
        bytes: memory,
        base,
    };
    let mut table = base;
    for level in (0..3).rev() {
        match memory.find(address, level, table) {
            Entry::Zero => return Walk::Empty(level),
            Entry::Invalid => return Walk::Fault,
            Entry::Leaf(leaf) => return Walk::Reached(level, leaf),
            Entry::Table(page) => table = page * 4096,
        }
    }
    Walk::Fault
}
