// Refusals in plain words: those of a reason stand beside it.
use crate::fault::{Fault, Layer};
use std::fmt;

impl fmt::Display for Layer {
    fn fmt<W: fmt::Write>(&self, f: &mut fmt::Formatter<W>) -> fmt::Result {
        f.write_str(match self {
            Layer::Open => "open",
            Layer::Plan => "plan",
            Layer::Process => "process",
            Layer::Space => "space",
            Layer::Dump => "dump",
        })
    }
}

impl fmt::Display for Fault {
    fn fmt<W: fmt::Write>(&self, f: &mut fmt::Formatter<W>) -> fmt::Result {
        let number = self.reason.number();
        let reason = self.reason;
        let layer = self.layer;
        let record = self.record;
        let place = self.place;
        write!(
            f,
            "refusal {number} by {layer}, record {record}, place {place:#x}: {reason}"
        )
    }
}
