// The rights of pages.
ghost use Rattle.std.specs.Prelude.{◌≡◌};
ghost use Rattle.image.specs.Prescribed.{rights_of};

use elf::kinds::Access;

// The rights in a segment's flags. A writable page is readable too.
pub fn rights_of(flags: u32) -> u8
    ensures { result ≡ rights_of flags }
{
    let write = Access::Write.is_in(flags);
    let read = write || Access::Read.is_in(flags);
    let execute = Access::Execute.is_in(flags);
    4 * u8::from(read) + 2 * u8::from(write) + u8::from(execute)
}
