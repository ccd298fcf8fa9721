// The largest file, the most segments, and what an opened file answers of its parts.
use crate::base::BASE;
use elf::kinds::HeaderType;
use elf::opened::{Opened, open};
use faults::fault::{Fault, Layer, Reason};
use std::alloc::{AllocError, Global};
use std::test::Fail;

// Why a file of that many zeros is refused.
fn fault_of_zeros(heap: Global, length: usize) -> Result<Option<Fault>, AllocError> {
    let file = vec![in heap; 0u8; length]?;
    Ok(open(file.as_slice()).err())
}

#[test]
fn the_largest_file(rt: HostRuntime) -> Result<(), Fail> {
    assert_eq!(rt;
        fault_of_zeros(rt.alloc(), 16_777_217)?,
        Some(Fault::new(Layer::Open, Reason::FileLength, 16_777_217))
    );
    assert_eq!(rt;
        fault_of_zeros(rt.alloc(), 16_777_216)?,
        Some(Fault::new(Layer::Open, Reason::Magic, 0))
    );
    Ok(())
}

// The base file with so many program headers, all of them load headers.
fn all_load(count: u8) -> [u8; 1024] {
    let mut file = BASE;
    file[56] = count;
    for header in file[64..].chunks_exact_mut(56).take(count as usize) {
        if let Some(kind) = header.first_chunk_mut() {
            *kind = (HeaderType::Load as u32).to_le_bytes();
        }
    }
    file
}

#[test]
fn at_most_sixteen_segments(rt: HostRuntime) {
    assert_eq!(rt;
        open(&all_load(17)).err(),
        Some(Fault::new(Layer::Open, Reason::LoadCount, 56))
    );
    assert_eq!(rt;
        open(&all_load(16)).err(),
        Some(Fault {
            reason: Reason::SegmentSize,
            layer: Layer::Open,
            record: 4,
            place: 64 + 4 * 56,
        })
    );
}

#[test]
fn the_parts_of_an_opened_file(rt: HostRuntime) -> Result<(), Fail> {
    let opened = Opened::new(&BASE);
    let header = opened.file_header().ok_or("no file header")?;
    assert_eq!(rt; header.entry, 0x180);
    let load = opened.header(2).ok_or("no header 2")?;
    assert_eq!(rt; load.memsz, 0x1000);
    assert!(rt; opened.header(5).is_none());
    let entry = opened.dynamic_entry(1).ok_or("no entry 1")?;
    assert_eq!(rt; entry.tag, 8);
    assert_eq!(rt; entry.value, 48);
    assert!(rt; opened.dynamic_entry(5).is_none());
    assert_eq!(rt; opened.relocations(), 2);
    let r = opened.relocation(0).ok_or("no relocation 0")?;
    assert_eq!(rt; r.offset, 0x1380);
    assert_eq!(rt; r.addend, -8);
    assert!(rt; opened.relocation(2).is_none());
    let table = opened.relocation_table();
    assert_eq!(rt; table.first, 0x350);
    let r = opened.relocation_at(0x368).ok_or("no relocation at 0x368")?;
    assert_eq!(rt; r.addend, 256);
    assert!(rt; opened.relocation_at(1001).is_none());
    Ok(())
}

#[test]
fn the_parts_of_a_file_that_is_refused(rt: HostRuntime) {
    let mut file = BASE;
    file[0x328] = 25;
    let opened = Opened::new(&file);
    assert_eq!(rt; opened.relocations(), 0);
    assert!(rt; opened.relocation(0).is_none());
    assert!(rt; opened.header(0).is_some());
}

#[test]
fn the_parts_of_a_file_that_is_cut(rt: HostRuntime) {
    let file = BASE;
    let cut = Opened::new(&file[0..176]);
    assert!(rt; cut.file_header().is_some());
    assert!(rt; cut.header(1).is_some());
    assert!(rt; cut.header(2).is_none());
}

#[test]
fn a_file_shorter_than_its_header(rt: HostRuntime) {
    let file = BASE;
    let short = Opened::new(&file[0..63]);
    assert!(rt; short.file_header().is_none());
}
