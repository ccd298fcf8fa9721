// What each kind shows of its pages beside the calls: walks and raw tables, and runs. Which frame a page has is asked, since that is the space's choice.
use super::{Answer, Call, FIRST, LIST, TABLES};
use faults::fault::Reason;
use regions::list::RegionList;
use regions::run::Run;
use space::parts::{Mapping, refusal};
use space::space::Space;
use std::test::Fail;
use sv39::entry::{Leaf, Walk};
use sv39::paging::Sv39;

const ADDRESS: u64 = (FIRST as u64) << 12;

#[test]
fn a_walk_finds_what_is_mapped(rt: HostRuntime) -> Result<(), Fail> {
    let mut memory = [0xff; 7 * 4096];
    let mut free = [0; 7];
    let mut space = Sv39::new(&mut memory, TABLES, &mut free);
    assert_eq!(rt; space.walk(ADDRESS), Walk::Empty(0));
    assert_eq!(rt; space.walk(0), Walk::Empty(2), "another gigabyte");
    assert_eq!(rt;
        space.walk(ADDRESS + (512 << 12)),
        Walk::Empty(1),
        "behind the window"
    );
    space.map(FIRST, 5)?;
    let mapping = space.look(FIRST).ok_or("not mapped")?;
    let leaf = Leaf {
        page: 0x80003 + u64::from(mapping.frame),
        rights: 5,
    };
    assert_eq!(rt; space.walk(ADDRESS), Walk::Reached(0, leaf));
    assert_eq!(rt; space.walk(ADDRESS + 4095), Walk::Reached(0, leaf));
    assert_eq!(rt; space.walk(ADDRESS + 4096), Walk::Empty(0));
    space.unmap(FIRST)?;
    assert_eq!(rt; space.walk(ADDRESS), Walk::Empty(0));
    Ok(())
}

#[test]
fn a_snapshot_needs_room_for_the_memory(rt: HostRuntime) {
    let mut memory = [0xff; 7 * 4096];
    let mut free = [0; 7];
    let space = Sv39::new(&mut memory, TABLES, &mut free);
    let mut short = [7; 7 * 4096 - 1];
    assert_eq!(rt;
        space.snapshot(&mut short),
        Err(refusal(Reason::OutputLength, 28_672))
    );
    assert_eq!(rt; short, [7; 7 * 4096 - 1]);
    let mut exact = [7; 7 * 4096];
    assert_eq!(rt; space.snapshot(&mut exact), Ok(28_672));
    let mut long = [7; 7 * 4096 + 1];
    assert_eq!(rt; space.snapshot(&mut long), Ok(28_672));
    assert!(rt; long.starts_with(&exact), "the same memory");
    assert_eq!(rt; long[28_672], 7);
}

#[test]
fn a_snapshot_shows_the_tables(rt: HostRuntime) -> Result<(), Fail> {
    let mut memory = [0xff; 7 * 4096];
    let mut free = [0; 7];
    let mut space = Sv39::new(&mut memory, TABLES, &mut free);
    let mut out = [7; 7 * 4096];
    space.snapshot(&mut out)?;
    // The root's entry 2 points to the middle table, the middle table's entry 0 to the leaf table.
    assert_eq!(rt; &out[16..24], 0x2000_0401u64.to_le_bytes().as_slice());
    assert_eq!(rt; &out[4096..4104], 0x2000_0801u64.to_le_bytes().as_slice());
    assert_eq!(rt; &out[8192..12_288], [0; 4096].as_slice());
    space.map(FIRST + 511, 6)?;
    let mapping = space.look(FIRST + 511).ok_or("not mapped")?;
    space.snapshot(&mut out)?;
    // Frame 0 is physical page 0x80003. A leaf to read and write has V, R, W, U, A and D.
    let page = 0x80003 + u64::from(mapping.frame);
    let leaf = page * 1024 + 0xd7;
    assert_eq!(rt; &out[8192..12_280], [0; 4088].as_slice());
    assert_eq!(rt; &out[12_280..12_288], leaf.to_le_bytes().as_slice());
    Ok(())
}

// The runs that the looks at the first pages of the window make.
fn looked(space: &mut RegionList) -> [Option<Run>; 4] {
    let mut runs = [None; 4];
    let mut run = Run::default();
    let mut at = 0usize;
    for page in FIRST..FIRST + 6 {
        let Some(Mapping { frame, rights }) = space.look(page) else {
            continue;
        };
        let goes_on = run.first.checked_add(run.count) == Some(page)
            && run.frame.checked_add(run.count) == Some(frame)
            && run.rights == rights;
        if goes_on {
            run.count = run.count.saturating_add(1);
        } else {
            at = at.saturating_add(usize::from(run.count > 0));
            run = Run {
                first: page,
                count: 1,
                rights,
                frame,
            };
        }
        if let Some(slot) = runs.get_mut(at) {
            *slot = Some(run);
        }
    }
    runs
}

#[test]
fn runs_are_those_of_the_looks(rt: HostRuntime) {
    let mut memory = [0xff; 4 * 4096];
    let mut runs = [Run::default(); 4];
    let mut free = [0; 4];
    let mut space = RegionList::new(&mut memory, LIST, &mut runs, &mut free);
    assert_eq!(rt; space.run(0), None);
    // What each call does to the runs where frames are taken in order and the one given back last is taken first.
    for call in [
        Call::Map(FIRST + 1, 6),
        Call::Map(FIRST + 2, 6),
        Call::Map(FIRST + 3, 6),
        // The first page of a run, which then is put before the run behind it.
        Call::Unmap(FIRST + 1),
        Call::Map(FIRST + 1, 6),
        // The last page of a run; its frame goes to a page with other rights, a run of one page.
        Call::Unmap(FIRST + 3),
        Call::Map(FIRST, 5),
        Call::Unmap(FIRST),
        Call::Map(FIRST + 3, 6),
        // The middle of a run, which then joins what it had parted.
        Call::Unmap(FIRST + 2),
        Call::Map(FIRST + 2, 6),
        // A page with a gap before it.
        Call::Map(FIRST + 5, 6),
        Call::Clear,
    ] {
        assert_eq!(rt; call.answer(&mut space), Answer::Done, "{call:?}");
        let shown = [0, 1, 2, 3].map(|i| space.run(i));
        assert_eq!(rt; shown, looked(&mut space), "{call:?}");
    }
}

#[test]
fn pages_apart_have_runs_of_their_own(rt: HostRuntime) -> Result<(), Fail> {
    let mut memory = [0xff; 4 * 4096];
    let mut runs = [Run::default(); 4];
    let mut free = [0; 4];
    let mut space = RegionList::new(&mut memory, LIST, &mut runs, &mut free);
    space.map(FIRST + 3, 4)?;
    space.map(FIRST + 511, 6)?;
    space.map(FIRST + 2, 1)?;
    space.map(FIRST, 1)?;
    let pages = [0, 1, 2, 3].map(|i| space.run(i).map(|run| (run.first, run.count, run.rights)));
    let expected = [
        Some((FIRST, 1, 1)),
        Some((FIRST + 2, 1, 1)),
        Some((FIRST + 3, 1, 4)),
        Some((FIRST + 511, 1, 6)),
    ];
    assert_eq!(rt; pages, expected);
    assert_eq!(rt; space.run(4), None);
    Ok(())
}
