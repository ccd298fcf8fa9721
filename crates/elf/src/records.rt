// The records of an ELF file, each read from the file's bytes.
ghost use Rattle.std.specs.Prelude.{◌≡◌, ℕ, ◌+◌, ◌-◌, ◌*◌, ◌/◌, ◌%◌, ◌^◌, ◌<◌, ◌≤◌, List, length, MatchOption};
ghost use Rattle.std.specs.Iterator.{at_most};
ghost use Rattle.elf.specs.Layouts.{Sound};
ghost use Rattle.elf.specs.Records.{file_header, header_at, entry_at, relocation_at};
ghost use Rattle.elf.specs.Segments.{offset_in};
ghost use Rattle.elf.specs.Dynamic.{none};
ghost use Rattle.elf.specs.Props.{layout_props, entry_small, relocation_small};
ghost use Rattle.elf.specs.declared.layout.Layout.{Layout as Shape};

use crate::bytes::{signed_at, u16_at, u32_at, word_at};
use crate::layout::Layout;
use crate::stages::File;

// The fields of the file header behind its identification. Here and below kinds and tags are numbers: a file may hold any, and `is` asks the enums.
#[derive(Clone, Copy)]
pub struct FileHeader {
    pub kind: u16,
    pub machine: u16,
    pub version: u32,
    pub entry: u64,
    pub phoff: u64,
    pub flags: u32,
    pub ehsize: u16,
    pub phentsize: u16,
    pub phnum: u16,
}

#[derive(Clone, Copy)]
pub struct ProgramHeader {
    pub kind: u32,
    pub flags: u32,
    pub offset: u64,
    pub vaddr: u64,
    pub filesz: u64,
    pub memsz: u64,
    pub align: u64,
}

#[derive(Clone, Copy)]
pub struct DynamicEntry {
    pub tag: u64,
    pub value: u64,
}

#[derive(Clone, Copy)]
pub struct Relocation {
    pub offset: u64,
    pub kind: u32,
    pub symbol: u32,
    pub addend: i64,
}

// A table of records in a file: the first one's offset, the size of each, and how many there are.
#[derive(Clone, Copy)]
pub struct Table {
    pub first: u64,
    pub size: u64,
    pub count: u32,
}

// Layout and bytes stand apart: the stages, which carry both, read by this.
pub(crate) fn file_header(l: Layout, file: &[u8]) -> FileHeader
    requires { (Sound l) × (l.file.size ≤ length file.now) }
    ensures { result ≡ file_header l file.now }
{
    FileHeader {
        kind: u16_at(file, 16),
        machine: u16_at(file, 18),
        version: u32_at(file, 20),
        entry: word_at(file, l.file.entry, l.word),
        phoff: word_at(file, l.file.phoff, l.word),
        flags: u32_at(file, l.file.flags),
        ehsize: u16_at(file, l.file.ehsize),
        phentsize: u16_at(file, l.file.phentsize),
        phnum: u16_at(file, l.file.phnum),
    }
}

// A record of one of a file's tables: how many bytes it has in a layout, and how it is read from them. Here too layout and bytes stand apart.
pub(crate) trait Record: Copy {
    ghost width: { Shape → ℕ };

    ghost reads: { Shape → List ℕ → ℕ → Self };

    fn size(l: Layout) -> usize
        ensures { result ≡ width l };

    fn read(l: Layout, file: &[u8], at: usize) -> Self
        requires { (Sound l) × (at + width l ≤ length file.now) }
        ensures { result ≡ reads l file.now at };

    // A record is small.
    ghost small: { (l : Shape) → Sound l → width l ≤ 64 };
}

impl Record for ProgramHeader {
    ghost width = { λ l. l.header.size };

    ghost reads = { header_at };

    fn size(l: Layout) -> usize {
        l.header.size
    }

    fn read(l: Layout, file: &[u8], at: usize) -> ProgramHeader {
        ProgramHeader {
            kind: u32_at(file, at),
            flags: u32_at(file, at + l.header.flags),
            offset: word_at(file, at + l.header.offset, l.word),
            vaddr: word_at(file, at + l.header.vaddr, l.word),
            filesz: word_at(file, at + l.header.filesz, l.word),
            memsz: word_at(file, at + l.header.memsz, l.word),
            align: word_at(file, at + l.header.align, l.word),
        }
    }

    ghost small = { λ l sound. sound.small };
}

impl Record for DynamicEntry {
    ghost width = { λ l. l.dynamic };

    ghost reads = { entry_at };

    fn size(l: Layout) -> usize {
        l.dynamic
    }

    fn read(l: Layout, file: &[u8], at: usize) -> DynamicEntry {
        DynamicEntry {
            tag: word_at(file, at, l.word),
            value: word_at(file, at + l.word, l.word),
        }
    }

    ghost small = { λ l sound. entry_small l sound };
}

// The type and the symbol in a relocation's info. That of 64-bit files is split by a literal: a division by a number that comes with the layout takes
// as long as all else of the reading.
fn split(info: u64, kinds: u64) -> (u32, u32)
    requires kinds { (0 < kinds) × (kinds ≤ 2 ^ 32) }
    requires symbols { info < kinds * 2 ^ 32 }
    ensures { (result.0 ≡ info % kinds) × (result.1 ≡ info / kinds) }
{
    if kinds == 1 << 32 {
        ((info % (1 << 32)) as u32, (info / (1 << 32)) as u32)
    } else {
        ((info % kinds) as u32, (info / kinds) as u32)
    }
}

impl Record for Relocation {
    ghost width = { λ l. l.relocation };

    ghost reads = { relocation_at };

    fn size(l: Layout) -> usize {
        l.relocation
    }

    fn read(l: Layout, file: &[u8], at: usize) -> Relocation {
        let info = word_at(file, at + l.word, l.word);
        let (kind, symbol) = split(info, l.kinds);
        Relocation {
            offset: word_at(file, at, l.word),
            kind,
            symbol,
            addend: signed_at(file, at + 2 * l.word, l.word),
        }
    }

    ghost small = { λ l sound. relocation_small l sound };
}

// Reads one program header after the other.
#[derive(Clone, Copy)]
pub struct HeaderReader<'a> {
    file: File<'a>,
    at: u64,
}

impl<'a> HeaderReader<'a> {
    // A reader of the file's program headers from an offset on.
    pub(crate) fn new(file: File<'a>, at: u64) -> HeaderReader<'a>
        ensures { (result.file ≡ file.entry) × (result.at ≡ at) }
    {
        HeaderReader { file, at }
    }
}

// `None` where the file's end cuts the next header short: then the reader stays where it is.
impl Iterator for HeaderReader<'_> {
    type Item = ProgramHeader;

    ghost next_gives = { λ s r t. (t.file ≡ s.file) × MatchOption r ((length s.file.bytes.now < s.at + s.file.layout.header.size) × (t.at ≡ s.at)) (λ h. (s.at + s.file.layout.header.size ≤ length s.file.bytes.now) × (h ≡ header_at s.file.layout s.file.bytes.now s.at) × (t.at ≡ s.at + s.file.layout.header.size)) };

    ghost remaining = { λ s. at_most (length s.file.bytes.now - s.at) };

    fn next(&mut self) -> Option<ProgramHeader> {
        let header = self.file.record(self.at)?;
        self.at += self.file.layout.header.size as u64;
        Some(header)
    }
}

impl Table {
    // No records of this size.
    pub(crate) fn none(size: usize) -> Table
        ensures { result ≡ none size }
    {
        Table {
            first: 0,
            size: size as u64,
            count: 0,
        }
    }

    // Where the record `i` begins.
    pub(crate) fn offset(&self, i: u32) -> u64
        requires { self.now.first + self.now.size * i < 2 ^ 64 }
        ensures { result ≡ offset_in self.now i }
    {
        self.first + self.size * i as u64
    }
}
