// A checked file at a bias.
ghost use Rattle.std.specs.Prelude.{◌≡◌};
ghost use Rattle.faults.specs.Rules.{AllClear};
ghost use Rattle.elf.specs.Layouts.{elf64};
ghost use Rattle.image.specs.Pages.{page_count};
ghost use Rattle.image.specs.Plans.{load_rules};
ghost use Rattle.image.specs.Prescribed.{image_of};
ghost use Rattle.image.specs.Stages.{AllClear-prop};

use crate::checked::Checked;
use crate::prescribed::Image;

// A file at a bias, with the rules of opening and of planning clear.
#[derive(Clone, Copy)]
pub(crate) struct Placed<'a> {
    pub(crate) checked: Checked<'a>,
    pub(crate) bias: u64,
    ghost clear: { AllClear (load_rules elf64 checked.opened.file.now bias) } by { AllClear-prop (load_rules elf64 checked.opened.file.now bias) },
}

impl<'a> Placed<'a> {
    // How many pages the segments cover.
    pub(crate) fn pages(&self) -> u32
        ensures { result ≡ page_count (image_of elf64 self.now.checked.opened.file.now self.now.bias).ranges }
    {
        self.segments().pages() as u32
    }

    // The address at which the loaded file begins.
    pub(crate) fn entry(&self) -> u64
        ensures { result ≡ (image_of elf64 self.now.checked.opened.file.now self.now.bias).entry }
    {
        self.bias + self.checked.entry()
    }

    // The image, with its segments and its relocation table.
    pub(crate) fn image(&self) -> Image<'a>
        ensures { (result.opened.file.now ≡ self.now.checked.opened.file.now) × (result.bias ≡ self.now.bias) }
    {
        let opened = self.checked.opened;
        Image {
            opened,
            bias: self.bias,
            segments: self.segments(),
            table: opened.relocation_table(),
        }
    }
}
