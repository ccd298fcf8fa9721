// What opening answers, for each refusal: files that get it, with its record and place, and files that just pass.
mod headers;
mod segments;
mod tables;

use crate::base::BASE;
use elf::opened::open;
use faults::fault::Fault;
use std::process::Abort;
use std::test::Fail;

// A number that is written into the file at an offset, lowest byte first: of 1, 2, 4 or 8 bytes.
#[derive(Clone, Copy)]
pub(crate) enum Patch {
    Byte(usize, u8),
    Half(usize, u16),
    Word(usize, u32),
    Double(usize, u64),
}

// Writes bytes at an offset, if they end within the file.
fn write<const N: usize>(file: &mut [u8], at: usize, bytes: [u8; N]) -> Option<()> {
    *file.get_mut(at..)?.first_chunk_mut()? = bytes;
    Some(())
}

impl Patch {
    fn apply(self, file: &mut [u8]) -> Option<()> {
        match self {
            Patch::Byte(at, value) => write(file, at, [value]),
            Patch::Half(at, value) => write(file, at, value.to_le_bytes()),
            Patch::Word(at, value) => write(file, at, value.to_le_bytes()),
            Patch::Double(at, value) => write(file, at, value.to_le_bytes()),
        }
    }
}

// The base file, patched and cut to a length, and the fault that it gets, if any.
#[derive(Clone, Copy)]
pub(crate) struct Case {
    pub(crate) name: &'static str,
    pub(crate) length: usize,
    pub(crate) patches: &'static [Patch],
    pub(crate) fault: Option<Fault>,
}

impl Case {
    fn patched(&self) -> Option<[u8; 1024]> {
        let mut file = BASE;
        for patch in self.patches {
            patch.apply(&mut file)?;
        }
        Some(file)
    }
}

fn try_cases(rt: &impl Abort, cases: &[Case]) -> Result<(), Fail> {
    for case in cases {
        let file = case
            .patched()
            .ok_or("a patch passes the end of the base file")?;
        let cut = file
            .get(..case.length)
            .ok_or("a case is longer than the base file")?;
        assert_eq!(rt; open(cut).err(), case.fault, "{}", case.name);
    }
    Ok(())
}

#[test]
fn headers_are_checked(rt: HostRuntime) -> Result<(), Fail> {
    try_cases(&rt, &headers::CASES)
}

#[test]
fn segments_are_checked(rt: HostRuntime) -> Result<(), Fail> {
    try_cases(&rt, &segments::CASES)
}

#[test]
fn tables_are_checked(rt: HostRuntime) -> Result<(), Fail> {
    try_cases(&rt, &tables::CASES)
}
