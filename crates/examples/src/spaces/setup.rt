// Figures that a set-up just takes and just refuses, and what is made of refused ones.
use super::{FIRST, LIST, TABLES};
use faults::fault::{Fault, Reason};
use regions::figures::Figures as ListFigures;
use regions::list::RegionList;
use regions::run::Run;
use space::parts::{Bounds, refusal};
use space::space::Space;
use sv39::entry::Walk;
use sv39::figures::Figures;
use sv39::paging::Sv39;

// What a check answers.
fn answer(lawful: bool) -> Result<(), Fault> {
    if lawful {
        return Ok(());
    }
    Err(refusal(Reason::SpaceFigures, 0))
}

// No page and no frame.
const NOTHING: Bounds = Bounds {
    first: 0,
    count: 0,
    frames: 0,
};

#[test]
fn page_tables_need_whole_frames_with_an_entry_each(rt: HostRuntime) {
    // The memory's length, the length of the buffer for frames.
    for (memory, free, lawful) in [
        (7 * 4096, 7, true),
        (7 * 4096, 9, true),
        (7 * 4096, 6, false),
        (7 * 4096 - 1, 7, false),
        (7 * 4096 + 1, 8, false),
        (3 * 4096, 3, true),
        (2 * 4096, 7, false),
        (0, 7, false),
        (65_536 * 4096, 65_536, true),
        (65_537 * 4096, 65_537, false),
    ] {
        assert_eq!(rt;
            Sv39::check(memory, TABLES, free),
            answer(lawful),
            "{memory} {free}"
        );
    }
}

#[test]
fn page_tables_need_a_window_below_page_2_26(rt: HostRuntime) {
    let memory = 515 * 4096;
    for (gigabyte, leaves, lawful) in [
        (255, 1, true),
        (256, 1, false),
        (0, 0, false),
        (0, 512, true),
        (255, 512, true),
        (0, 513, false),
    ] {
        let figures = Figures {
            base: 0,
            gigabyte,
            leaves,
        };
        assert_eq!(rt;
            Sv39::check(memory, figures, 515),
            answer(lawful),
            "{figures:?}"
        );
    }
}

#[test]
fn page_tables_need_a_base_at_a_page_and_an_end_by_2_56(rt: HostRuntime) {
    let top = (1 << 56) - 7 * 4096;
    for (base, lawful) in [
        (0, true),
        (2048, false),
        (4096, true),
        (top, true),
        (top + 4096, false),
    ] {
        let figures = Figures { base, ..TABLES };
        assert_eq!(rt;
            Sv39::check(7 * 4096, figures, 7),
            answer(lawful),
            "{figures:?}"
        );
    }
}

#[test]
fn a_region_list_needs_whole_frames_with_a_run_and_an_entry_each(rt: HostRuntime) {
    // The memory's length, the lengths of the buffers for runs and for frames.
    for (memory, runs, free, lawful) in [
        (4 * 4096, 4, 4, true),
        (4 * 4096, 7, 9, true),
        (4 * 4096, 3, 4, false),
        (4 * 4096, 4, 3, false),
        (4 * 4096 + 1, 5, 5, false),
        (4 * 4096 - 1, 4, 4, false),
        (0, 0, 0, true),
        (65_536 * 4096, 65_536, 65_536, true),
        (65_537 * 4096, 65_537, 65_537, false),
    ] {
        assert_eq!(rt;
            RegionList::check(memory, LIST, runs, free),
            answer(lawful),
            "{memory} {runs} {free}"
        );
    }
}

#[test]
fn a_region_list_needs_a_window_below_page_2_26(rt: HostRuntime) {
    for (gigabyte, leaves, lawful) in [
        (255, 512, true),
        (256, 1, false),
        (0, 0, false),
        (0, 513, false),
    ] {
        let figures = ListFigures { gigabyte, leaves };
        assert_eq!(rt;
            RegionList::check(4 * 4096, figures, 4, 4),
            answer(lawful),
            "{figures:?}"
        );
    }
}

#[test]
fn figures_are_those_of_the_set_up(rt: HostRuntime) {
    let mut memory = [0; 3 * 4096];
    let mut runs = [Run::default(); 3];
    let mut free = [0; 3];
    let tables = Sv39::new(&mut memory, TABLES, &mut free);
    assert_eq!(rt; tables.figures(), TABLES);
    let list = RegionList::new(&mut memory, LIST, &mut runs, &mut free);
    assert_eq!(rt; list.figures(), LIST);
}

#[test]
fn a_refused_region_list_is_empty_and_leaves_memory_and_buffers(rt: HostRuntime) {
    let run = Run {
        first: 3,
        count: 2,
        rights: 1,
        frame: 0,
    };
    let mut memory = [0xff; 3 * 4096];
    let mut runs = [run; 2];
    let mut free = [9; 3];
    let mut list = RegionList::new(&mut memory, LIST, &mut runs, &mut free);
    assert_eq!(rt; list.bounds(), NOTHING);
    assert_eq!(rt; list.figures(), ListFigures::default());
    assert_eq!(rt; list.look(3), None);
    assert_eq!(rt; list.run(0), None);
    assert_eq!(rt;
        list.map(3, 4),
        Err(refusal(Reason::OutsideWindow, 3 << 12))
    );
    list.clear();
    assert_eq!(rt; memory, [0xff; 3 * 4096]);
    assert_eq!(rt; runs, [run; 2]);
    assert_eq!(rt; free, [9; 3]);
}

#[test]
fn refused_page_tables_are_empty_and_leave_memory_and_buffer(rt: HostRuntime) {
    let mut memory = [0xff; 3 * 4096];
    let mut free = [9; 2];
    let mut tables = Sv39::new(&mut memory, TABLES, &mut free);
    assert_eq!(rt; tables.bounds(), NOTHING);
    assert_eq!(rt; tables.figures(), Figures::default());
    assert_eq!(rt; tables.look(FIRST), None);
    assert_eq!(rt; tables.map(0, 4), Err(refusal(Reason::OutsideWindow, 0)));
    tables.clear();
    // The raw memory is no table: all its bits are set.
    assert_eq!(rt; tables.walk(u64::from(FIRST) << 12), Walk::Fault);
    let mut out = [7; 3 * 4096];
    assert_eq!(rt; tables.snapshot(&mut out), Ok(12_288));
    assert_eq!(rt; out, [0xff; 3 * 4096]);
    assert_eq!(rt; memory, [0xff; 3 * 4096]);
    assert_eq!(rt; free, [9; 2]);
}
