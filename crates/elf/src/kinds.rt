// The numbers by which a file says what it and its records are, as far as the loader knows them.
ghost use Rattle.std.specs.Prelude.{◌≡◌, ◌/◌, ◌%◌, ◌^◌, Decides};
ghost use Rattle.elf.specs.Kinds.{access_number, file_number, header_number, relocation_number, tag_number};

use crate::records::{DynamicEntry, FileHeader, ProgramHeader, Relocation};

// The type of a file: at fixed addresses, or position-independent.
#[derive(Clone, Copy, PartialEq, Eq, Debug)]
pub enum FileType {
    Static = 2,
    Independent = 3,
}

// What a program header describes.
#[derive(Clone, Copy, PartialEq, Eq, Debug)]
pub enum HeaderType {
    Load = 1,
    Dynamic = 2,
    Interpreter = 3,
}

// What a relocation puts at its offset: nothing, or the bias plus its addend.
#[derive(Clone, Copy, PartialEq, Eq, Debug)]
pub enum RelocationType {
    Nothing = 0,
    Relative = 3,
}

// What a dynamic entry is about.
#[derive(Clone, Copy, PartialEq, Eq, Debug)]
pub enum Tag {
    Null = 0,
    Needed = 1,
    JmpRelSize = 2,
    Rela = 7,
    RelaSize = 8,
    RelaEntry = 9,
    Rel = 17,
    RelSize = 18,
    TextRel = 22,
    JmpRel = 23,
    RelrSize = 35,
    Relr = 36,
}

// What a segment's flags let a program do with it: the numbers of the bits.
#[derive(Clone, Copy, PartialEq, Eq, Debug)]
pub enum Access {
    Execute = 0,
    Write = 1,
    Read = 2,
}

impl Access {
    // Whether flags allow it.
    pub fn is_in(self, flags: u32) -> bool
        ensures { Decides result (flags / 2 ^ access_number self % 2 ≡ 1) }
    {
        (flags >> self as u32) % 2 == 1
    }
}

impl From<FileType> for u16 {
    ghost from_gives = { λ kind number. number ≡ file_number kind };

    fn from(kind: FileType) -> u16 {
        kind as u16
    }
}

impl From<HeaderType> for u32 {
    ghost from_gives = { λ header number. number ≡ header_number header };

    fn from(header: HeaderType) -> u32 {
        header as u32
    }
}

impl From<RelocationType> for u32 {
    ghost from_gives = { λ relocation number. number ≡ relocation_number relocation };

    fn from(relocation: RelocationType) -> u32 {
        relocation as u32
    }
}

impl From<Tag> for u64 {
    ghost from_gives = { λ tag number. number ≡ tag_number tag };

    fn from(tag: Tag) -> u64 {
        tag as u64
    }
}

impl FileHeader {
    // Whether the file is of a type. One line for each record, here and below: its field and the width of that are its own, and a trait for them
    // would have more lines than it saves.
    pub fn is(&self, kind: FileType) -> bool
        ensures { Decides result (self.now.kind ≡ file_number kind) }
    {
        self.kind == u16::from(kind)
    }
}

impl ProgramHeader {
    // Whether the header is of a type.
    pub fn is(&self, header: HeaderType) -> bool
        ensures { Decides result (self.now.kind ≡ header_number header) }
    {
        self.kind == u32::from(header)
    }
}

impl Relocation {
    // Whether the relocation is of a type.
    pub fn is(&self, relocation: RelocationType) -> bool
        ensures { Decides result (self.now.kind ≡ relocation_number relocation) }
    {
        self.kind == u32::from(relocation)
    }
}

impl DynamicEntry {
    // Whether the entry has a tag. All 64 bits count.
    pub fn is(&self, tag: Tag) -> bool
        ensures { Decides result (self.now.tag ≡ tag_number tag) }
    {
        self.tag == u64::from(tag)
    }
}
