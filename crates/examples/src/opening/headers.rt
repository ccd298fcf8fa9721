// What opening answers by the rules on the file header and the program headers as a whole.
use super::Case;
use super::Patch::{Byte, Double, Half, Word};
use faults::fault::{Fault, Layer, Reason};

pub(crate) const CASES: [Case; 29] = [
    Case {
        name: "the base file",
        length: 1024,
        patches: &[],
        fault: None,
    },
    Case {
        name: "1: shorter than a header",
        length: 63,
        patches: &[],
        fault: Some(Fault {
            reason: Reason::FileLength,
            layer: Layer::Open,
            record: 0,
            place: 63,
        }),
    },
    Case {
        name: "1: as long as a header, and cut behind it",
        length: 64,
        patches: &[],
        fault: Some(Fault {
            reason: Reason::HeadersPastEnd,
            layer: Layer::Open,
            record: 0,
            place: 32,
        }),
    },
    Case {
        name: "2: a wrong letter",
        length: 1024,
        patches: &[Byte(3, 71)],
        fault: Some(Fault {
            reason: Reason::Magic,
            layer: Layer::Open,
            record: 0,
            place: 0,
        }),
    },
    Case {
        name: "2: a wrong first byte",
        length: 1024,
        patches: &[Byte(0, 0)],
        fault: Some(Fault {
            reason: Reason::Magic,
            layer: Layer::Open,
            record: 0,
            place: 0,
        }),
    },
    Case {
        name: "3: class 1",
        length: 1024,
        patches: &[Byte(4, 1)],
        fault: Some(Fault {
            reason: Reason::Identification,
            layer: Layer::Open,
            record: 0,
            place: 4,
        }),
    },
    Case {
        name: "3: highest byte first",
        length: 1024,
        patches: &[Byte(5, 2)],
        fault: Some(Fault {
            reason: Reason::Identification,
            layer: Layer::Open,
            record: 0,
            place: 5,
        }),
    },
    Case {
        name: "3: the first of two",
        length: 1024,
        patches: &[Byte(7, 3), Byte(6, 2)],
        fault: Some(Fault {
            reason: Reason::Identification,
            layer: Layer::Open,
            record: 0,
            place: 6,
        }),
    },
    Case {
        name: "3: another OS ABI",
        length: 1024,
        patches: &[Byte(7, 3)],
        fault: Some(Fault {
            reason: Reason::Identification,
            layer: Layer::Open,
            record: 0,
            place: 7,
        }),
    },
    Case {
        name: "3: padding is free",
        length: 1024,
        patches: &[Byte(8, 9)],
        fault: None,
    },
    Case {
        name: "4: type 1",
        length: 1024,
        patches: &[Half(16, 1)],
        fault: Some(Fault {
            reason: Reason::FileHeader,
            layer: Layer::Open,
            record: 0,
            place: 16,
        }),
    },
    Case {
        name: "4: type 4",
        length: 1024,
        patches: &[Half(16, 4)],
        fault: Some(Fault {
            reason: Reason::FileHeader,
            layer: Layer::Open,
            record: 0,
            place: 16,
        }),
    },
    Case {
        name: "4: type 2 is taken",
        length: 1024,
        patches: &[Half(16, 2)],
        fault: None,
    },
    Case {
        name: "4: another machine",
        length: 1024,
        patches: &[Half(18, 62)],
        fault: Some(Fault {
            reason: Reason::FileHeader,
            layer: Layer::Open,
            record: 0,
            place: 18,
        }),
    },
    Case {
        name: "4: version 2",
        length: 1024,
        patches: &[Word(20, 2)],
        fault: Some(Fault {
            reason: Reason::FileHeader,
            layer: Layer::Open,
            record: 0,
            place: 20,
        }),
    },
    Case {
        name: "4: flags bit 3",
        length: 1024,
        patches: &[Word(48, 8)],
        fault: Some(Fault {
            reason: Reason::FileHeader,
            layer: Layer::Open,
            record: 0,
            place: 48,
        }),
    },
    Case {
        name: "4: all flags below bit 3",
        length: 1024,
        patches: &[Word(48, 7)],
        fault: None,
    },
    Case {
        name: "4: header size",
        length: 1024,
        patches: &[Half(52, 63)],
        fault: Some(Fault {
            reason: Reason::FileHeader,
            layer: Layer::Open,
            record: 0,
            place: 52,
        }),
    },
    Case {
        name: "4: program header size",
        length: 1024,
        patches: &[Half(54, 32)],
        fault: Some(Fault {
            reason: Reason::FileHeader,
            layer: Layer::Open,
            record: 0,
            place: 54,
        }),
    },
    Case {
        name: "4: machine before version",
        length: 1024,
        patches: &[Word(20, 2), Half(18, 62)],
        fault: Some(Fault {
            reason: Reason::FileHeader,
            layer: Layer::Open,
            record: 0,
            place: 18,
        }),
    },
    Case {
        name: "5: no headers",
        length: 1024,
        patches: &[Half(56, 0)],
        fault: Some(Fault {
            reason: Reason::HeaderCount,
            layer: Layer::Open,
            record: 0,
            place: 56,
        }),
    },
    Case {
        name: "5: 65 headers",
        length: 1024,
        patches: &[Half(56, 65)],
        fault: Some(Fault {
            reason: Reason::HeaderCount,
            layer: Layer::Open,
            record: 0,
            place: 56,
        }),
    },
    Case {
        name: "5: 64 headers are taken, and pass the end",
        length: 1024,
        patches: &[Half(56, 64)],
        fault: Some(Fault {
            reason: Reason::HeadersPastEnd,
            layer: Layer::Open,
            record: 0,
            place: 32,
        }),
    },
    Case {
        name: "6: one byte past the end",
        length: 1024,
        patches: &[Double(32, 969), Half(56, 1)],
        fault: Some(Fault {
            reason: Reason::HeadersPastEnd,
            layer: Layer::Open,
            record: 0,
            place: 32,
        }),
    },
    Case {
        name: "6: up to the end, where no segment stands",
        length: 1024,
        patches: &[Double(32, 968), Half(56, 1)],
        fault: Some(Fault {
            reason: Reason::LoadCount,
            layer: Layer::Open,
            record: 0,
            place: 56,
        }),
    },
    Case {
        name: "6: no sum wraps",
        length: 1024,
        patches: &[Double(32, 0xffffffffffffffc8)],
        fault: Some(Fault {
            reason: Reason::HeadersPastEnd,
            layer: Layer::Open,
            record: 0,
            place: 32,
        }),
    },
    Case {
        name: "7: an interpreter",
        length: 1024,
        patches: &[Word(288, 3)],
        fault: Some(Fault {
            reason: Reason::Interpreter,
            layer: Layer::Open,
            record: 4,
            place: 288,
        }),
    },
    Case {
        name: "7: the first of two",
        length: 1024,
        patches: &[Word(288, 3), Word(64, 3)],
        fault: Some(Fault {
            reason: Reason::Interpreter,
            layer: Layer::Open,
            record: 0,
            place: 64,
        }),
    },
    Case {
        name: "8: no segment",
        length: 1024,
        patches: &[Word(120, 6), Word(176, 6)],
        fault: Some(Fault {
            reason: Reason::LoadCount,
            layer: Layer::Open,
            record: 0,
            place: 56,
        }),
    },
];
