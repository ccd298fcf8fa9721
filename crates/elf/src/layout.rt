// Where a class of ELF file keeps its fields, and the sizes that the loader takes. Offsets, widths and sizes are in bytes.
// The file header: its size, and the offset of each field.
#[derive(Clone, Copy)]
pub struct FileFields {
    pub size: usize,
    pub entry: usize,
    pub phoff: usize,
    pub flags: usize,
    pub ehsize: usize,
    pub phentsize: usize,
    pub phnum: usize,
}

// A program header: its size, and the offset of each field. The type stands at offset 0.
#[derive(Clone, Copy)]
pub struct HeaderFields {
    pub size: usize,
    pub flags: usize,
    pub offset: usize,
    pub vaddr: usize,
    pub filesz: usize,
    pub memsz: usize,
    pub align: usize,
}

// The most that the loader takes: bytes of a file, program headers, load headers, bytes of a dynamic table, relocations.
#[derive(Clone, Copy)]
pub struct Limits {
    pub file: usize,
    pub headers: u16,
    pub loads: u32,
    pub dynamic: u64,
    pub relocations: u64,
}

// A class of ELF file. A dynamic entry is a tag and a value of `word` bytes, a relocation an offset, an info and an addend.
// `kinds` splits a relocation's info: its type is the remainder, its symbol the quotient. No segment passes `end`.
#[derive(Clone, Copy)]
pub struct Layout {
    pub class: u8,
    pub word: usize,
    pub file: FileFields,
    pub header: HeaderFields,
    pub dynamic: usize,
    pub relocation: usize,
    pub kinds: u64,
    pub end: u64,
    pub limits: Limits,
}

// The bytes of a page.
pub const PAGE: u64 = 4096;

// The largest relocation table, in relocations.
pub const LARGEST_TABLE: u64 = 65_536;

// The layout of 64-bit files.
pub const ELF64: Layout = Layout {
    class: 2,
    word: 8,
    file: FileFields {
        size: 64,
        entry: 24,
        phoff: 32,
        flags: 48,
        ehsize: 52,
        phentsize: 54,
        phnum: 56,
    },
    header: HeaderFields {
        size: 56,
        flags: 4,
        offset: 8,
        vaddr: 16,
        filesz: 32,
        memsz: 40,
        align: 48,
    },
    dynamic: 16,
    relocation: 24,
    kinds: 1 << 32,
    end: 1 << 38,
    limits: Limits {
        file: 16_777_216,
        headers: 64,
        loads: 16,
        dynamic: 4096,
        relocations: LARGEST_TABLE,
    },
};
