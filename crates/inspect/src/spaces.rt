// A page that is mapped and unmapped in each kind of address space, for the demonstration.
use crate::report::Report;
use crate::rights::Rights;
use faults::fault::Fault;
use regions::figures::Figures as ListFigures;
use regions::list::RegionList;
use regions::run::Run;
use space::parts::Mapping;
use space::space::Space;
use space::tlb::Tlb;
use std::io;
use sv39::entry::{Leaf, Walk};
use sv39::figures::Figures;
use sv39::paging::Sv39;

// The page: the second one of a window that begins with gigabyte 2.
const PAGE: u32 = 0x80001;

// What a space shows of its pages, each kind in its own way.
trait Show: Space {
    fn show<R: Print>(&mut self, rt: &R) -> io::Result<()>;
}

impl Show for Sv39<'_> {
    fn show<R: Print>(&mut self, rt: &R) -> io::Result<()> {
        let address = u64::from(PAGE) << 12;
        match self.walk(address) {
            Walk::Reached(level, Leaf { page, rights }) => {
                let rights = Rights(rights);
                println!(rt;
                    "  walk {address:#x}: a leaf of level {level}, physical page {page:#x}, {rights}"
                )
            }
            Walk::Empty(level) => println!(rt;
                "  walk {address:#x}: a zero entry of level {level}"
            ),
            Walk::Fault => println!(rt; "  walk {address:#x}: a fault"),
        }
    }
}

impl Show for RegionList<'_> {
    fn show<R: Print>(&mut self, rt: &R) -> io::Result<()> {
        let Some(run) = self.run(0) else {
            return rt.println("  no runs");
        };
        let Run {
            first,
            count,
            rights,
            frame,
        } = run;
        let rights = Rights(rights);
        println!(rt;
            "  run 0: pages from {first:#x}, {count} of them, {rights}, frames from {frame}"
        )
    }
}

impl<S: Space> Show for Tlb<'_, S> {
    fn show<R: Print>(&mut self, rt: &R) -> io::Result<()> {
        let Some(mapping) = self.look(PAGE) else {
            return println!(rt; "  look {PAGE:#x}: not mapped");
        };
        let Mapping { frame, rights } = mapping;
        let rights = Rights(rights);
        println!(rt; "  look {PAGE:#x}: frame {frame}, {rights}")
    }
}

// What a call on the page answered.
fn print_answer<R: Print>(rt: &R, call: &str, answer: Result<(), Fault>) -> io::Result<()> {
    match answer {
        Ok(()) => println!(rt; "{call}: done"),
        Err(fault) => Report::new(rt, call).refused(&fault),
    }
}

// Maps the page to read and write, maps it again, and unmaps it; and shows the space each time.
fn map_and_unmap<S: Show, R: Print>(rt: &R, space: &mut S) -> io::Result<()> {
    space.show(rt)?;
    print_answer(rt, "map", space.map(PAGE, 6))?;
    space.show(rt)?;
    print_answer(rt, "map", space.map(PAGE, 6))?;
    print_answer(rt, "unmap", space.unmap(PAGE))?;
    space.show(rt)
}

pub(crate) fn show_spaces<R: Print>(rt: &R) -> io::Result<()> {
    println!(rt;
        "page {PAGE:#x} in Sv39 tables at 0x80000000, which take the first 3 of 5 frames"
    )?;
    let figures = Figures {
        base: 0x8000_0000,
        gigabyte: 2,
        leaves: 1,
    };
    let mut memory = [0; 5 * 4096];
    let mut free = [0; 5];
    map_and_unmap(rt, &mut Sv39::new(&mut memory, figures, &mut free))?;
    rt.println("in a region list of 2 frames")?;
    let figures = ListFigures {
        gigabyte: 2,
        leaves: 1,
    };
    let mut memory = [0; 2 * 4096];
    let mut free = [0; 2];
    let mut runs = [Run::default(); 2];
    let mut list = RegionList::new(&mut memory, figures, &mut runs, &mut free);
    map_and_unmap(rt, &mut list)?;
    rt.println("in the same list, behind a TLB")?;
    map_and_unmap(rt, &mut Tlb::new(&mut list))
}
