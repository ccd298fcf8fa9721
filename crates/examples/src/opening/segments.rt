// What opening answers by the rules on segments and on the entry point.
use super::Case;
use super::Patch::{Double, Word};
use faults::fault::{Fault, Layer, Reason};

pub(crate) const CASES: [Case; 28] = [
    Case {
        name: "9: empty",
        length: 1024,
        patches: &[Double(160, 0)],
        fault: Some(Fault {
            reason: Reason::SegmentSize,
            layer: Layer::Open,
            record: 1,
            place: 120,
        }),
    },
    Case {
        name: "9: more in the file than in memory",
        length: 1024,
        patches: &[Double(216, 511)],
        fault: Some(Fault {
            reason: Reason::SegmentSize,
            layer: Layer::Open,
            record: 2,
            place: 176,
        }),
    },
    Case {
        name: "9: as much in the file as in memory",
        length: 1024,
        patches: &[Double(160, 512)],
        fault: None,
    },
    Case {
        name: "9: one byte past the end",
        length: 1024,
        patches: &[Double(208, 513)],
        fault: Some(Fault {
            reason: Reason::SegmentSize,
            layer: Layer::Open,
            record: 2,
            place: 176,
        }),
    },
    Case {
        name: "9: no file bytes, past the end",
        length: 1024,
        patches: &[Double(208, 0), Double(184, 0x1200)],
        fault: Some(Fault {
            reason: Reason::SegmentSize,
            layer: Layer::Open,
            record: 2,
            place: 176,
        }),
    },
    Case {
        name: "9: no sum wraps",
        length: 1024,
        patches: &[Double(184, 0xffffffffffffff00)],
        fault: Some(Fault {
            reason: Reason::SegmentSize,
            layer: Layer::Open,
            record: 2,
            place: 176,
        }),
    },
    Case {
        name: "10: three is no power",
        length: 1024,
        patches: &[Double(168, 3)],
        fault: Some(Fault {
            reason: Reason::SegmentAlignment,
            layer: Layer::Open,
            record: 1,
            place: 120,
        }),
    },
    Case {
        name: "10: zero",
        length: 1024,
        patches: &[Double(168, 0)],
        fault: None,
    },
    Case {
        name: "10: one is a power",
        length: 1024,
        patches: &[Double(168, 1)],
        fault: None,
    },
    Case {
        name: "10: the largest power",
        length: 1024,
        patches: &[Double(168, 0x8000000000000000)],
        fault: None,
    },
    Case {
        name: "10: address and offset differ",
        length: 1024,
        patches: &[Double(192, 0x1201)],
        fault: Some(Fault {
            reason: Reason::SegmentAlignment,
            layer: Layer::Open,
            record: 2,
            place: 176,
        }),
    },
    Case {
        name: "10: they differ modulo two pages",
        length: 1024,
        patches: &[Double(224, 0x2000)],
        fault: Some(Fault {
            reason: Reason::SegmentAlignment,
            layer: Layer::Open,
            record: 2,
            place: 176,
        }),
    },
    Case {
        name: "11: no rights",
        length: 1024,
        patches: &[Word(124, 8)],
        fault: Some(Fault {
            reason: Reason::SegmentFlags,
            layer: Layer::Open,
            record: 1,
            place: 120,
        }),
    },
    Case {
        name: "11: write and execute",
        length: 1024,
        patches: &[Word(180, 3)],
        fault: Some(Fault {
            reason: Reason::SegmentFlags,
            layer: Layer::Open,
            record: 2,
            place: 176,
        }),
    },
    Case {
        name: "11: write alone",
        length: 1024,
        patches: &[Word(180, 2)],
        fault: None,
    },
    Case {
        name: "12: one byte past the end of addresses",
        length: 1024,
        patches: &[Double(192, 0x3ffffff200), Double(216, 0xe01)],
        fault: Some(Fault {
            reason: Reason::SegmentEnd,
            layer: Layer::Open,
            record: 2,
            place: 176,
        }),
    },
    Case {
        name: "12: up to the end of addresses, away from the relocation table",
        length: 1024,
        patches: &[Double(192, 0x3ffffff200), Double(216, 0xe00)],
        fault: Some(Fault {
            reason: Reason::RelocationTable,
            layer: Layer::Open,
            record: 0,
            place: 232,
        }),
    },
    Case {
        name: "12: no sum wraps",
        length: 1024,
        patches: &[Double(192, 0xfffffffffffff200)],
        fault: Some(Fault {
            reason: Reason::SegmentEnd,
            layer: Layer::Open,
            record: 2,
            place: 176,
        }),
    },
    Case {
        name: "13: on the same page",
        length: 1024,
        patches: &[Double(192, 512)],
        fault: Some(Fault {
            reason: Reason::SegmentOrder,
            layer: Layer::Open,
            record: 2,
            place: 176,
        }),
    },
    Case {
        name: "13: the segment before ends on its page",
        length: 1024,
        patches: &[Double(160, 0x1001)],
        fault: Some(Fault {
            reason: Reason::SegmentOrder,
            layer: Layer::Open,
            record: 2,
            place: 176,
        }),
    },
    Case {
        name: "13: the segment before ends below its page",
        length: 1024,
        patches: &[Double(160, 0x1000)],
        fault: None,
    },
    Case {
        name: "13: above the first segment, and not above the one before",
        length: 1024,
        patches: &[
            Word(288, 1),
            Word(292, 4),
            Double(328, 16),
            Double(320, 16),
            Double(336, 0),
            Double(304, 0x2000),
        ],
        fault: Some(Fault {
            reason: Reason::SegmentOrder,
            layer: Layer::Open,
            record: 4,
            place: 288,
        }),
    },
    Case {
        name: "13: above the one before",
        length: 1024,
        patches: &[
            Word(288, 1),
            Word(292, 4),
            Double(328, 16),
            Double(320, 16),
            Double(336, 0),
            Double(304, 0x3000),
        ],
        fault: None,
    },
    Case {
        name: "14: odd",
        length: 1024,
        patches: &[Double(24, 385)],
        fault: Some(Fault {
            reason: Reason::EntryPoint,
            layer: Layer::Open,
            record: 0,
            place: 24,
        }),
    },
    Case {
        name: "14: in data",
        length: 1024,
        patches: &[Double(24, 0x1200)],
        fault: Some(Fault {
            reason: Reason::EntryPoint,
            layer: Layer::Open,
            record: 0,
            place: 24,
        }),
    },
    Case {
        name: "14: behind the last instruction",
        length: 1024,
        patches: &[Double(24, 512)],
        fault: Some(Fault {
            reason: Reason::EntryPoint,
            layer: Layer::Open,
            record: 0,
            place: 24,
        }),
    },
    Case {
        name: "14: the last instruction",
        length: 1024,
        patches: &[Double(24, 510)],
        fault: None,
    },
    Case {
        name: "14: address 0",
        length: 1024,
        patches: &[Double(24, 0)],
        fault: None,
    },
];
