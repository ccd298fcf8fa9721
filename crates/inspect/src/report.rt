// What the program says of a file.
use faults::fault::Fault;
use std::io;

// Where answers are printed, and the name of the file that they speak of.
#[derive(Drop)]
pub(crate) struct Report<'a, R> {
    pub(crate) rt: &'a R,
    pub(crate) name: &'a str,
}

impl<'a, R> Report<'a, R> {
    pub(crate) fn new(rt: &'a R, name: &'a str) -> Report<'a, R> {
        Report { rt, name }
    }
}

impl<R: Print> Report<'_, R> {
    pub(crate) fn refused(&self, fault: &Fault) -> io::Result<()> {
        let name = self.name;
        let Fault {
            reason,
            layer,
            record,
            place,
        } = *fault;
        let number = reason.number();
        let layer = layer.number();
        println!(self.rt;
            "{name}: refused {number} layer={layer} record={record} place={place:#x}"
        )?;
        println!(self.rt; "  {reason}")
    }
}
