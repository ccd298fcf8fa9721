// Rights of pages, as the program prints them.
use elf::kinds::Access;
use std::fmt;

// The rights to read (4), write (2) and execute (1), added up.
#[derive(Clone, Copy)]
pub(crate) struct Rights(pub(crate) u8);

impl Rights {
    // The letter of a right, where it is among these.
    fn letter(self, right: Access, letter: char) -> char {
        if right.is_in(u32::from(self.0)) {
            letter
        } else {
            '-'
        }
    }
}

// A letter for each right: read, write, execute.
impl fmt::Display for Rights {
    fn fmt<W: fmt::Write>(&self, f: &mut fmt::Formatter<W>) -> fmt::Result {
        let r = self.letter(Access::Read, 'r');
        let w = self.letter(Access::Write, 'w');
        let x = self.letter(Access::Execute, 'x');
        write!(f, "{r}{w}{x}")
    }
}
