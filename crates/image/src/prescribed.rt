// The image of a file at a bias.
ghost use Rattle.std.specs.Prelude.{◌≡◌};
ghost use Rattle.faults.specs.Rules.{AllClear};
ghost use Rattle.elf.specs.Layouts.{elf64};
ghost use Rattle.elf.specs.Dynamic.{relocation_table};
ghost use Rattle.image.specs.Plans.{load_rules};
ghost use Rattle.image.specs.Prescribed.{segments_of};
ghost use Rattle.image.specs.Stages.{AllClear-prop, listed};

use crate::segments::Segments;
use elf::opened::Opened;
use elf::records::Table;

// A file at a bias whose rules of opening and of planning are clear, with its segments and its relocation table.
#[derive(Clone, Copy)]
pub(crate) struct Image<'a> {
    pub(crate) opened: Opened<'a>,
    pub(crate) bias: u64,
    pub(crate) segments: Segments,
    pub(crate) table: Table,
    ghost clear: { AllClear (load_rules elf64 opened.file.now bias) } by { AllClear-prop (load_rules elf64 opened.file.now bias) },
    ghost gathered: { listed segments ≡ segments_of elf64 opened.file.now bias },
    ghost tabled: { table ≡ relocation_table elf64 opened.file.now },
}
