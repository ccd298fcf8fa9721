// The laws of the prescribed image, and examples of its definitions.
ghost use Rattle.std.specs.Prelude.{◌≡◌};
ghost use Rattle.elf.specs.Layouts.{elf64};
ghost use Rattle.image.specs.Prescribed.{Assembled};
ghost use Rattle.faults.specs.Rules.{Decided};
ghost use Rattle.image.specs.Plans.{loads_of};
ghost use Rattle.image.specs.Examples.{Examples};

// How many images a file has at a bias: one, or one fault in its place. The image is what the file's bytes on zeros and then the
// words in the table's order give.
pub fn images_at_most() -> u8
    ensures value { result ≡ 1 }
    ensures decided { Decided loads_of }
    ensures assembled { Assembled elf64 }
    ensures examples { Examples }
{
    1u8
}
