// Numbers stored lowest byte first, and bytes that lie in others.
ghost use Rattle.std.specs.Prelude.{◌≡◌, ◌+◌, ◌%◌, ◌^◌, ◌<◌, ◌≤◌, ◌⊎◌, length, Decides};
ghost use Rattle.elf.specs.Bytes.{le};
ghost use Rattle.elf.specs.Records.{signed};

use byteorder::{ByteOrder, LittleEndian};

// One line each: its answer has the type of its width.
pub(crate) fn u16_at(file: &[u8], at: usize) -> u16
    requires { at + 2 ≤ length file.now }
    ensures { result ≡ le file.now at 2 }
{
    LittleEndian::read_u16(&file[at..at + 2])
}

pub(crate) fn u32_at(file: &[u8], at: usize) -> u32
    requires { at + 4 ≤ length file.now }
    ensures { result ≡ le file.now at 4 }
{
    LittleEndian::read_u32(&file[at..at + 4])
}

// A number of an address's width, 4 or 8 bytes. The width stays a number: offsets in a record are sums of it, and addresses are tested for being
// multiples of it. The library is told the width as a literal, here and below: told a number that comes with the file's layout, it copies the bytes
// by a call of memcpy, and a check of many relocations takes ten times as long.
pub(crate) fn word_at(file: &[u8], at: usize, width: usize) -> u64
    requires inside { at + width ≤ length file.now }
    requires width { (width ≡ 4) ⊎ (width ≡ 8) }
    ensures value { result ≡ le file.now at width }
    ensures bound { result < 256 ^ width }
{
    if width == 4 {
        LittleEndian::read_uint(&file[at..], 4)
    } else {
        LittleEndian::read_uint(&file[at..], 8)
    }
}

// A number of an address's width, read as a signed one.
pub(crate) fn signed_at(file: &[u8], at: usize, width: usize) -> i64
    requires inside { at + width ≤ length file.now }
    requires width { (width ≡ 4) ⊎ (width ≡ 8) }
    ensures { result ≡ signed width (le file.now at width) }
{
    if width == 4 {
        LittleEndian::read_int(&file[at..], 4)
    } else {
        LittleEndian::read_int(&file[at..], 8)
    }
}

// Whether an address is a multiple of the width of an address. By literals, as above: no division by a number of the layout.
pub(crate) fn is_aligned(address: u64, width: usize) -> bool
    requires { (width ≡ 4) ⊎ (width ≡ 8) }
    ensures { Decides result (address % width ≡ 0) }
{
    if width == 4 {
        address % 4 == 0
    } else {
        address % 8 == 0
    }
}

// Whether the `length` bytes from `start` on hold the `size` bytes from `from` on.
pub fn holds(start: u64, length: u64, from: u64, size: u64) -> bool
    ensures { Decides result ((start ≤ from) × (from + size ≤ start + length)) }
{
    start <= from && size <= length && from - start <= length - size
}

// Whether a file has the `size` bytes from an offset on.
pub(crate) fn has(file: &[u8], offset: u64, size: u64) -> bool
    ensures { Decides result (offset + size ≤ length file.now) }
{
    holds(0, file.len() as u64, offset, size)
}
