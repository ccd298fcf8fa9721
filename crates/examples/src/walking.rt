// Walks through a page table at 0x80000000 that serves every level: its entry 1 points to itself.
use sv39::entry::{Leaf, Walk, leaf_of, pointer_to};
use sv39::walk::walk;

const BASE: u64 = 0x8000_0000;

// The first entries of the table; the others are 0.
const ENTRIES: [u64; 10] = [
    0,
    // the table itself; behind the memory; before the memory; itself with A set
    0x2000_0001,
    0x2000_0401,
    0x1fff_fc01,
    0x2000_0041,
    // 0x80005000 to read and write; without V; without R; with bit 54
    0x2000_14d7,
    0x2000_14d6,
    0x2000_14d5,
    0x0040_0000_2000_14d7,
    // 0x80200000 to read and execute
    0x2008_005b,
];

// The memory: one table.
fn table() -> [u8; 4096] {
    let mut memory = [0; 4096];
    for (place, entry) in memory.chunks_exact_mut(8).zip(ENTRIES) {
        place.copy_from_slice(&entry.to_le_bytes());
    }
    memory
}

// The walk by these entries of the root table, the next and the last.
fn by(root: u32, middle: u32, last: u32) -> Walk {
    walk(
        &table(),
        BASE,
        (root as u64) << 30 | (middle as u64) << 21 | (last as u64) << 12,
    )
}

#[test]
fn leaves_are_reached(rt: HostRuntime) {
    let small = Leaf {
        page: 0x80005,
        rights: 6,
    };
    let large = Leaf {
        page: 0x80200,
        rights: 5,
    };
    assert_eq!(rt; by(1, 1, 5), Walk::Reached(0, small));
    assert_eq!(rt; by(1, 1, 9), Walk::Reached(0, large));
    assert_eq!(rt; by(1, 9, 0), Walk::Reached(1, large));
    assert_eq!(rt; by(1, 5, 0), Walk::Fault, "not at a multiple of 512 pages");
    assert_eq!(rt;
        by(9, 0, 0),
        Walk::Fault,
        "not at a multiple of 262,144 pages"
    );
}

#[test]
fn zero_entries_of_each_level(rt: HostRuntime) {
    assert_eq!(rt; by(1, 1, 0), Walk::Empty(0));
    assert_eq!(rt; by(1, 511, 5), Walk::Empty(1));
    assert_eq!(rt; by(511, 1, 5), Walk::Empty(2));
}

#[test]
fn what_the_architecture_does_not_translate(rt: HostRuntime) {
    assert_eq!(rt; by(1, 1, 1), Walk::Fault, "a pointer at the last level");
    assert_eq!(rt; by(1, 2, 5), Walk::Fault, "a table behind the memory");
    assert_eq!(rt; by(1, 3, 5), Walk::Fault, "a table before the memory");
    assert_eq!(rt; by(1, 4, 5), Walk::Fault, "a pointer with A");
    assert_eq!(rt; by(1, 1, 6), Walk::Fault, "no V");
    assert_eq!(rt; by(1, 1, 7), Walk::Fault, "W without R");
    assert_eq!(rt; by(1, 1, 8), Walk::Fault, "a reserved bit");
    assert_eq!(rt; by(513, 1, 5), Walk::Fault, "an address with bit 39");
}

#[test]
fn entries_are_made(rt: HostRuntime) {
    assert_eq!(rt; pointer_to(0x80001), 0x2000_0401);
    assert_eq!(rt; leaf_of(0x80005, 6), 0x2000_14d7);
    assert_eq!(rt; leaf_of(0x80200, 5), 0x2008_005b);
    assert_eq!(rt; leaf_of(1, 1), 0x459);
    assert_eq!(rt; leaf_of(1, 4), 0x453);
}
