// The entries of Sv39 page tables, bit by bit.
ghost use Rattle.std.specs.Prelude.{◌≡◌, ◌%◌, ◌^◌, ◌<◌, Decides};
ghost use Rattle.sv39.specs.Entries.{bit, bit_number, Malformed, Pointing, page_in, rights_in, pointer, leaf};

// The number of the first of the 44 bits of the physical page.
const PAGE_SHIFT: u32 = 10;

// How many physical pages there are.
const PAGES: u64 = 1 << 44;

// The bits V, R, W, X, U, A and D of an entry, by their numbers. A bit is 0 or 1 here: rights and the test of a pointer are sums of bits.
// Rights have bits of their own (2 read, 1 write, 0 execute), as in the flags of a file, which this crate doesn't know.
#[derive(Clone, Copy, PartialEq, Eq, Debug)]
enum Bit {
    Valid = 0,
    Read = 1,
    Write = 2,
    Execute = 3,
    User = 4,
    Accessed = 6,
    Dirty = 7,
}

impl Bit {
    // The bit in an entry.
    fn of(self, entry: u64) -> u64
        ensures { result ≡ bit (bit_number self) entry }
    {
        nth_bit(entry, self as u32)
    }

    // The entry in which this bit alone is set.
    fn alone(self) -> u64
        ensures { result ≡ 2 ^ bit_number self }
    {
        1 << self as u32
    }
}

// A physical page and the rights to it: 4 read, 2 write, 1 execute. They stay a number: `rights_in` answers it of any entry, which may have
// any of the eight.
#[derive(Clone, Copy, PartialEq, Eq, Debug)]
pub struct Leaf {
    pub page: u64,
    pub rights: u8,
}

// What an entry says.
#[derive(Clone, Copy, PartialEq, Eq, Debug)]
pub enum Entry {
    // Nothing: all its bits are 0.
    Zero,
    // Something that the architecture has no meaning for.
    Invalid,
    // The next table lies in this physical page.
    Table(u64),
    // The walk ends here.
    Leaf(Leaf),
}

// How a walk ends. A level is a number: what a leaf spans and where an address indexes a table are sums and powers of it.
#[derive(Clone, Copy, PartialEq, Eq, Debug)]
pub enum Walk {
    // At a leaf of this level; level 0 is the last.
    Reached(u32, Leaf),
    // At a 0 entry of this level.
    Empty(u32),
    // At an entry or address that the architecture does not translate, or outside the memory.
    Fault,
}

// Bit n of a number.
fn nth_bit(number: u64, n: u32) -> u64
    requires { n < 64 }
    ensures { result ≡ bit n number }
{
    (number >> n) % 2
}

// The physical page in an entry.
pub fn page_in(entry: u64) -> u64
    ensures { result ≡ page_in entry }
{
    (entry >> PAGE_SHIFT) % PAGES
}

// The rights in an entry.
pub fn rights_in(entry: u64) -> u8
    ensures { result ≡ rights_in entry }
{
    (4 * Bit::Read.of(entry) + 2 * Bit::Write.of(entry) + Bit::Execute.of(entry)) as u8
}

// Whether an entry has none of R, W and X.
pub fn is_pointing(entry: u64) -> bool
    ensures { Decides result (Pointing entry) }
{
    Bit::Read.of(entry) + Bit::Write.of(entry) + Bit::Execute.of(entry) == 0
}

// Whether the architecture has no meaning for an entry.
pub fn is_malformed(entry: u64) -> bool
    ensures { Decides result (Malformed entry) }
{
    let used = Bit::User.of(entry) + Bit::Accessed.of(entry) + Bit::Dirty.of(entry);
    Bit::Valid.of(entry) == 0
        || (Bit::Read.of(entry) == 0 && Bit::Write.of(entry) == 1)
        || entry >= 1 << 54
        || (is_pointing(entry) && used > 0)
}

// The entry that points to the table in a physical page, which has 44 bits.
#[tactic(auto, unfolding(crate::specs::Entries::pointer))]
pub fn pointer_to(page: u64) -> u64
    ensures { result ≡ pointer (page % 2 ^ 44) }
{
    (page % PAGES << PAGE_SHIFT) + Bit::Valid.alone()
}

// The leaf of a physical page, which has 44 bits: U and A set, R, W and X as the rights say, D with W.
#[tactic(auto, unfolding(crate::specs::Entries::leaf))]
pub fn leaf_of(page: u64, rights: u8) -> u64
    ensures { result ≡ leaf (page % 2 ^ 44) rights }
{
    let rights = u64::from(rights);
    let read = nth_bit(rights, 2) * Bit::Read.alone();
    let write = nth_bit(rights, 1) * (Bit::Write.alone() + Bit::Dirty.alone());
    let execute = nth_bit(rights, 0) * Bit::Execute.alone();
    let always = Bit::Valid.alone() + Bit::User.alone() + Bit::Accessed.alone();
    (page % PAGES << PAGE_SHIFT) + (always + read + write + execute)
}
