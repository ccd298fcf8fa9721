// Plans of the base file: rules 21 and 22, page ranges, rights, and which byte stands where.
use crate::base::BASE;
use elf::kinds::FileType;
use elf::opened::Opened;
use faults::fault::{Fault, Layer, Reason};
use image::origin::Origin;
use image::plan::Plan;
use image::planning::plan;
use image::ranges::{PageRange, lowest_outside, lowest_shared};
use std::test::Fail;

// Why the base file, its type set, is refused at a bias.
fn fault_of(kind: FileType, bias: u64) -> Option<Fault> {
    let mut file = BASE;
    file[16] = kind as u8;
    plan(&Opened::new(&file), bias).err()
}

#[test]
fn the_bias_is_checked(rt: HostRuntime) {
    assert_eq!(rt; fault_of(FileType::Independent, 0), None, "bias 0");
    assert_eq!(rt; fault_of(FileType::Independent, 0x1000), None, "a page");
    assert_eq!(rt;
        fault_of(FileType::Independent, 0x1008),
        Some(Fault::new(Layer::Plan, Reason::BiasValue, 0x1008))
    );
    assert_eq!(rt; fault_of(FileType::Static, 0), None, "a static file at 0");
    assert_eq!(rt;
        fault_of(FileType::Static, 0x1000),
        Some(Fault::new(Layer::Plan, Reason::BiasValue, 0x1000)),
        "a static file moved"
    );
}

// The base file ends at 0x2200, so the last bias that fits is 2^38 - 0x3000.
#[test]
fn the_largest_bias(rt: HostRuntime) {
    assert_eq!(rt;
        fault_of(FileType::Independent, (1 << 38) - 0x3000),
        None,
        "the largest bias"
    );
    assert_eq!(rt;
        fault_of(FileType::Independent, (1 << 38) - 0x2000),
        Some(Fault::new(Layer::Plan, Reason::BiasEnd, (1 << 38) - 0x2000))
    );
}

#[test]
fn pages_and_rights(rt: HostRuntime) -> Result<(), Fail> {
    let file = BASE;
    let opened = Opened::new(&file);
    let plan = Plan::new(&opened, 0x10000);
    assert_eq!(rt; plan.entry()?, 0x10180);
    assert_eq!(rt; plan.pages()?, 3);
    assert_eq!(rt; plan.rights(16)?, Some(5));
    assert_eq!(rt; plan.rights(17)?, Some(6));
    assert_eq!(rt; plan.rights(18)?, Some(6));
    assert_eq!(rt; plan.rights(19)?, None);
    let segments = plan.segments()?;
    assert_eq!(rt; segments.count(), 2);
    let data = segments.get(1).ok_or("no second segment")?;
    assert_eq!(rt; data.pages.first, 17);
    assert_eq!(rt; data.pages.count, 2);
    assert_eq!(rt; data.address, 0x11200);
    assert!(rt; segments.get(2).is_none());
    Ok(())
}

#[test]
fn bytes_and_origins(rt: HostRuntime) -> Result<(), Fail> {
    let file = BASE;
    let opened = Opened::new(&file);
    let plan = Plan::new(&opened, 0x10000);
    let mut word = [1u8; 8];
    plan.bytes(0x11380, &mut word)?;
    assert_eq!(rt;
        word,
        [0xf8, 0xff, 0, 0, 0, 0, 0, 0],
        "addend -8 into file bytes"
    );
    plan.bytes(0x12000, &mut word)?;
    assert_eq!(rt; word, [0, 1, 1, 0, 0, 0, 0, 0], "a word in bss");
    plan.bytes(0x11200, &mut word)?;
    assert_eq!(rt; word, [0; 8], "file bytes");
    plan.bytes(0x10000, &mut word)?;
    assert_eq!(rt;
        word,
        [0x7f, 0x45, 0x4c, 0x46, 2, 1, 1, 0],
        "the file's header"
    );
    assert_eq!(rt; plan.origin(0x10003)?, Some(Origin::File(3)));
    assert_eq!(rt; plan.origin(0x11387)?, Some(Origin::Word(0)));
    assert_eq!(rt; plan.origin(0x12007)?, Some(Origin::Word(1)));
    assert_eq!(rt; plan.origin(0x11600)?, Some(Origin::Inside));
    assert_eq!(rt; plan.origin(0x10200)?, Some(Origin::Around));
    assert_eq!(rt; plan.origin(0x12200)?, Some(Origin::Around));
    assert_eq!(rt; plan.origin(0x13000)?, None);
    Ok(())
}

// Both relocations at one word: the last in the table decides.
#[test]
fn the_last_relocation_decides(rt: HostRuntime) -> Result<(), Fail> {
    let mut file = BASE;
    file[0x369] = 0x13;
    file[0x368] = 0x80;
    let opened = Opened::new(&file);
    let plan = Plan::new(&opened, 0x10000);
    let mut word = [1u8; 8];
    plan.bytes(0x11380, &mut word)?;
    assert_eq!(rt; word, [0, 1, 1, 0, 0, 0, 0, 0]);
    assert_eq!(rt; plan.origin(0x11380)?, Some(Origin::Word(1)));
    Ok(())
}

// A plan made past a refused check answers that fault, and leaves a buffer as it was.
#[test]
fn a_plan_past_a_refused_check(rt: HostRuntime) {
    let mut file = BASE;
    file[0] = 0;
    let opened = Opened::new(&file);
    let plan = Plan::new(&opened, 8);
    let fault = Fault::new(Layer::Open, Reason::Magic, 0);
    assert_eq!(rt; plan.pages(), Err(fault));
    let mut word = [7u8; 8];
    assert_eq!(rt; plan.bytes(0, &mut word), Err(fault));
    assert_eq!(rt; word, [7; 8]);
}

fn window(first: u32, count: u32) -> PageRange {
    PageRange { first, count }
}

#[test]
fn pages_outside_and_shared(rt: HostRuntime) {
    let ranges = [window(16, 2), window(30, 4)];
    assert_eq!(rt; lowest_outside(&ranges, window(0, 34)), None);
    assert_eq!(rt; lowest_outside(&ranges, window(0, 33)), Some(33));
    assert_eq!(rt; lowest_outside(&ranges, window(17, 100)), Some(16));
    assert_eq!(rt; lowest_outside(&ranges, window(0, 0)), Some(16));
    let others = [
        PageRange {
            first: 18,
            count: 12,
        },
        PageRange {
            first: 33,
            count: 1,
        },
    ];
    assert_eq!(rt; lowest_shared(&ranges, &others), Some(33));
    assert_eq!(rt; lowest_shared(&ranges, &others[0..1]), None);
}
