// The same calls on spaces of every kind, with the same answers from each.
mod setup;
mod shown;

use faults::fault::{Fault, Reason};
use regions::figures::Figures as ListFigures;
use regions::list::RegionList;
use regions::run::Run;
use space::parts::{Bounds, Mapping, refusal};
use space::space::Space;
use space::tlb::Tlb;
use std::process::Abort;
use sv39::figures::Figures;
use sv39::paging::Sv39;

// The first page of the windows, which have 512 pages. Every space has four frames.
pub(crate) const FIRST: u32 = 0x80000;

pub(crate) const TABLES: Figures = Figures {
    base: 0x8000_0000,
    gigabyte: 2,
    leaves: 1,
};

pub(crate) const LIST: ListFigures = ListFigures {
    gigabyte: 2,
    leaves: 1,
};

// A call. A byte is named by its page, since the frame of a page is the space's own choice.
#[derive(Clone, Copy, Debug)]
pub(crate) enum Call {
    Look(u32),
    Map(u32, u8),
    Unmap(u32),
    Read(u32, u32),
    Write(u32, u32, u8),
    Peek(u32),
    Poke(u32),
    PastEnd(u32),
    Clear,
}

// What a call answers, but for the frame of a page.
#[derive(Clone, Copy, PartialEq, Eq, Debug)]
pub(crate) enum Answer {
    Done,
    Rights(u8),
    Unmapped,
    Byte(u8),
    Refused(Fault),
    RefusedAtFrame,
}

impl From<Result<(), Fault>> for Answer {
    fn from(done: Result<(), Fault>) -> Answer {
        match done {
            Ok(()) => Answer::Done,
            Err(fault) => Answer::Refused(fault),
        }
    }
}

impl From<Result<u8, Fault>> for Answer {
    fn from(read: Result<u8, Fault>) -> Answer {
        match read {
            Ok(byte) => Answer::Byte(byte),
            Err(fault) => Answer::Refused(fault),
        }
    }
}

impl Call {
    pub(crate) fn answer<S: Space>(self, space: &mut S) -> Answer {
        match self {
            Call::Look(page) => space
                .look(page)
                .map_or(Answer::Unmapped, |mapping| Answer::Rights(mapping.rights)),
            Call::Map(page, rights) => space.map(page, rights).into(),
            Call::Unmap(page) => space.unmap(page).into(),
            Call::Read(page, index) => match space.look(page) {
                Some(mapping) => space.peek(mapping.frame, index).into(),
                None => Answer::Unmapped,
            },
            Call::Write(page, index, byte) => match space.look(page) {
                Some(mapping) => space.poke(mapping.frame, index, byte).into(),
                None => Answer::Unmapped,
            },
            Call::Peek(frame) => space.peek(frame, 0).into(),
            Call::Poke(frame) => space.poke(frame, 0, 0xee).into(),
            Call::PastEnd(page) => match space.look(page) {
                Some(mapping) => past_end(space, mapping),
                None => Answer::Unmapped,
            },
            Call::Clear => {
                space.clear();
                Answer::Done
            }
        }
    }
}

// What index 4,096 of a page's frame is answered: a refusal at the frame, whichever frame it is.
fn past_end<S: Space>(space: &mut S, mapping: Mapping) -> Answer {
    let refused = refusal(Reason::FrameUnused, u64::from(mapping.frame));
    match space.poke(mapping.frame, 4096, 0xee) {
        Err(fault) if fault == refused => {}
        other => return other.into(),
    }
    match space.peek(mapping.frame, 4096) {
        Err(fault) if fault == refused => Answer::RefusedAtFrame,
        other => other.into(),
    }
}

// A refusal of a page, which is named by its address.
fn of_page(reason: Reason, page: u32) -> Answer {
    Answer::Refused(refusal(reason, u64::from(page) << 12))
}

fn refused(reason: Reason, place: u64) -> Answer {
    Answer::Refused(refusal(reason, place))
}

// Mapping: who gets a page, and when there is no frame any more.
fn mapping() -> [(Call, Answer); 14] {
    [
        (Call::Look(FIRST), Answer::Unmapped),
        (Call::Map(FIRST, 5), Answer::Done),
        (Call::Map(FIRST, 7), of_page(Reason::PageMapped, FIRST)),
        (Call::Map(FIRST + 1, 6), Answer::Done),
        (Call::Map(FIRST + 2, 6), Answer::Done),
        (Call::Look(FIRST), Answer::Rights(5)),
        (Call::Look(FIRST + 1), Answer::Rights(6)),
        (Call::Look(FIRST + 3), Answer::Unmapped),
        (Call::Look(FIRST - 1), Answer::Unmapped),
        (Call::Look(u32::MAX), Answer::Unmapped),
        (Call::Map(FIRST + 511, 1), Answer::Done),
        (Call::Look(FIRST + 511), Answer::Rights(1)),
        (Call::Map(FIRST + 3, 7), refused(Reason::NoRoom, 0)),
        (
            Call::Map(FIRST + 1, 7),
            of_page(Reason::PageMapped, FIRST + 1),
        ),
    ]
}

// Pages outside the window, the rule before all others; and rights that no page may have.
fn outside() -> [(Call, Answer); 12] {
    let out_of_window = |page| of_page(Reason::OutsideWindow, page);
    let rights = |rights| refused(Reason::RightsNumber, rights);
    [
        (Call::Map(FIRST - 1, 5), out_of_window(FIRST - 1)),
        (Call::Map(FIRST - 1, 7), out_of_window(FIRST - 1)),
        (Call::Map(FIRST + 512, 5), out_of_window(FIRST + 512)),
        (Call::Map(u32::MAX, 5), out_of_window(u32::MAX)),
        (Call::Unmap(FIRST - 1), out_of_window(FIRST - 1)),
        (Call::Unmap(FIRST + 512), out_of_window(FIRST + 512)),
        (Call::Unmap(u32::MAX), out_of_window(u32::MAX)),
        (Call::Map(FIRST, 0), rights(0)),
        (Call::Map(FIRST, 2), rights(2)),
        (Call::Map(FIRST, 3), rights(3)),
        (Call::Map(FIRST, 7), rights(7)),
        (Call::Look(FIRST), Answer::Unmapped),
    ]
}

// Bytes: each page has its own, a page begins with zeros, and what no page has is refused.
fn bytes() -> [(Call, Answer); 14] {
    [
        (Call::Write(FIRST + 1, 4095, 0xab), Answer::Done),
        (Call::Write(FIRST + 2, 0, 0xcd), Answer::Done),
        (Call::PastEnd(FIRST + 1), Answer::RefusedAtFrame),
        (Call::PastEnd(FIRST + 2), Answer::RefusedAtFrame),
        (Call::Read(FIRST + 1, 4095), Answer::Byte(0xab)),
        (Call::Read(FIRST + 1, 0), Answer::Byte(0)),
        (Call::Read(FIRST + 2, 0), Answer::Byte(0xcd)),
        (Call::Read(FIRST, 4095), Answer::Byte(0)),
        (Call::Peek(4), refused(Reason::FrameUnused, 4)),
        (
            Call::Poke(u32::MAX),
            refused(Reason::FrameUnused, 0xffff_ffff),
        ),
        (Call::Unmap(FIRST + 1), Answer::Done),
        (Call::Map(FIRST + 9, 4), Answer::Done),
        (Call::Read(FIRST + 9, 4095), Answer::Byte(0)),
        (Call::Read(FIRST + 2, 0), Answer::Byte(0xcd)),
    ]
}

// Unmapping, and clearing.
fn unmapping() -> [(Call, Answer); 13] {
    [
        (Call::Look(FIRST + 1), Answer::Unmapped),
        (
            Call::Unmap(FIRST + 1),
            of_page(Reason::PageUnmapped, FIRST + 1),
        ),
        (Call::Unmap(FIRST + 511), Answer::Done),
        (Call::Look(FIRST + 511), Answer::Unmapped),
        (Call::Look(FIRST), Answer::Rights(5)),
        (Call::Map(FIRST + 1, 6), Answer::Done),
        (Call::Look(FIRST + 1), Answer::Rights(6)),
        (Call::Clear, Answer::Done),
        (Call::Look(FIRST + 1), Answer::Unmapped),
        (Call::Peek(0), refused(Reason::FrameUnused, 0)),
        (Call::Poke(3), refused(Reason::FrameUnused, 3)),
        (Call::Map(FIRST + 1, 1), Answer::Done),
        (Call::Look(FIRST + 1), Answer::Rights(1)),
    ]
}

// Two pages 16 apart, which have one place in a TLB, on a space with no other page mapped.
fn sharing() -> [(Call, Answer); 15] {
    let (page, other) = (FIRST, FIRST + 16);
    [
        (Call::Map(page, 5), Answer::Done),
        (Call::Map(other, 6), Answer::Done),
        (Call::Look(page), Answer::Rights(5)),
        (Call::Look(other), Answer::Rights(6)),
        (Call::Write(other, 0, 0x16), Answer::Done),
        (Call::Write(page, 0, 0x01), Answer::Done),
        (Call::Read(other, 0), Answer::Byte(0x16)),
        (Call::Read(page, 0), Answer::Byte(0x01)),
        (Call::Unmap(other), Answer::Done),
        (Call::Look(page), Answer::Rights(5)),
        (Call::Look(other), Answer::Unmapped),
        (Call::Map(other, 4), Answer::Done),
        (Call::Unmap(page), Answer::Done),
        (Call::Look(other), Answer::Rights(4)),
        (Call::Look(page), Answer::Unmapped),
    ]
}

fn try_calls<S: Space>(rt: &impl Abort, space: &mut S, calls: &[(Call, Answer)]) {
    for (call, expected) in calls {
        assert_eq!(rt; call.answer(space), *expected, "{call:?}");
    }
}

// The bounds and all calls, on a space with no page mapped.
fn try_space<S: Space>(rt: &impl Abort, space: &mut S) {
    let bounds = Bounds {
        first: FIRST,
        count: 512,
        frames: 4,
    };
    assert_eq!(rt; space.bounds(), bounds);
    try_calls(rt, space, &outside());
    try_calls(rt, space, &mapping());
    try_calls(rt, space, &bytes());
    try_calls(rt, space, &unmapping());
    space.clear();
    try_calls(rt, space, &sharing());
    assert_eq!(rt; space.bounds(), bounds);
}

#[test]
fn page_tables_answer_every_call(rt: HostRuntime) {
    let mut memory = [0xff; 7 * 4096];
    let mut free = [0; 7];
    try_space(&rt, &mut Sv39::new(&mut memory, TABLES, &mut free));
}

#[test]
fn a_region_list_answers_every_call(rt: HostRuntime) {
    let mut memory = [0xff; 4 * 4096];
    let mut runs = [Run::default(); 4];
    let mut free = [0; 4];
    try_space(
        &rt,
        &mut RegionList::new(&mut memory, LIST, &mut runs, &mut free),
    );
}

#[test]
fn a_tlb_answers_as_the_page_tables_below(rt: HostRuntime) {
    let mut memory = [0xff; 7 * 4096];
    let mut free = [0; 7];
    let mut space = Sv39::new(&mut memory, TABLES, &mut free);
    try_space(&rt, &mut Tlb::new(&mut space));
}

#[test]
fn two_tlbs_answer_as_the_region_list_below(rt: HostRuntime) {
    let mut memory = [0xff; 4 * 4096];
    // Buffers that are longer than the frames are many.
    let mut runs = [Run::default(); 7];
    let mut free = [0; 9];
    let mut space = RegionList::new(&mut memory, LIST, &mut runs, &mut free);
    let mut inner = Tlb::new(&mut space);
    try_space(&rt, &mut Tlb::new(&mut inner));
}
