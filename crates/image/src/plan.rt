// Plans: a file at a bias.
ghost use Rattle.std.specs.Prelude.{◌≡◌, ℕ, ◌+◌, ◌<◌, map, find, length, IfOk, None, MatchResult, slice_index, slice_index_or};
ghost use Rattle.faults.specs.Rules.{Answers, AllClear, First};
ghost use Rattle.elf.specs.Layouts.{elf64};
ghost use Rattle.std.specs.Option.{option_map};
ghost use Rattle.image.specs.Origins.{ComesFrom, Traced, byte_from};
ghost use Rattle.image.specs.declared.origin.Origin.{Origin as Source};
ghost use Rattle.image.specs.Pages.{page_count, Ascending};
ghost use Rattle.image.specs.Prescribed.{segments_of, image_of, covers_page};
ghost use Rattle.image.specs.Stages.{listed};
ghost use Rattle.image.specs.Plans.{load_rules};

use crate::checked::Checked;
use crate::origin::Origin;
use crate::placed::Placed;
use crate::segments::Segments;
use crate::span::Span;
use elf::opened::Opened;
use faults::fault::Fault;

// A file at a bias.
#[derive(Clone, Copy)]
pub struct Plan<'a> {
    opened: Opened<'a>,
    bias: u64,
}

impl<'a> Plan<'a> {
    // A plan of any file at any bias. Made past a refused check, it answers that fault wherever it is asked for what it plans.
    // Two parameters: a file is opened once and planned at any number of biases, and a type for the pair would be `Plan` itself.
    pub fn new(opened: &Opened<'a>, bias: u64) -> Plan<'a>
        ensures { (result.opened.file.now ≡ opened.now.file.now) × (result.bias ≡ bias) }
    {
        Plan {
            opened: *opened,
            bias,
        }
    }

    // Checks the file and the bias against the rules of opening and of planning.
    pub(crate) fn check(&self) -> Result<Placed<'a>, Fault>
        ensures { Answers (load_rules elf64 self.now.opened.file.now self.now.bias) (λ p. (p.checked.opened.file.now ≡ self.now.opened.file.now) × (p.bias ≡ self.now.bias)) result }
    {
        Checked::new(&self.opened)?.at(self.bias)
    }

    // The file's segments at their bias, in ascending order.
    pub fn segments(&self) -> Result<Segments, Fault>
        ensures list { Answers (load_rules elf64 self.now.opened.file.now self.now.bias) (λ s. listed s ≡ segments_of elf64 self.now.opened.file.now self.now.bias) result }
        ensures ascending { IfOk result (λ s. Ascending (map (λ x. x.pages) (listed s))) }
    {
        Ok(self.check()?.segments())
    }

    // The address at which the loaded file begins.
    pub fn entry(&self) -> Result<u64, Fault>
        ensures { Answers (load_rules elf64 self.now.opened.file.now self.now.bias) (λ a. a ≡ (image_of elf64 self.now.opened.file.now self.now.bias).entry) result }
    {
        Ok(self.check()?.entry())
    }

    // How many pages the file's segments cover.
    pub fn pages(&self) -> Result<u32, Fault>
        ensures { Answers (load_rules elf64 self.now.opened.file.now self.now.bias) (λ n. n ≡ page_count (image_of elf64 self.now.opened.file.now self.now.bias).ranges) result }
    {
        Ok(self.check()?.pages())
    }

    // The rights that a page will have, where a segment covers it.
    pub fn rights(&self, page: u32) -> Result<Option<u8>, Fault>
        ensures { Answers (load_rules elf64 self.now.opened.file.now self.now.bias) (λ o. o ≡ option_map (λ s. s.rights) (find (covers_page page) (segments_of elf64 self.now.opened.file.now self.now.bias))) result }
    {
        Ok(self.segments()?.rights(page))
    }

    // Fills a buffer with the bytes that will stand from an address on; a refusal leaves it as it was.
    pub fn bytes(&self, address: u64, out: &mut [u8]) -> Result<(), Fault>
        ensures { MatchResult result (λ _. AllClear (load_rules elf64 self.now.opened.file.now self.now.bias) × ((j : ℕ) → j < length out.old → slice_index out.new j ≡ (image_of elf64 self.now.opened.file.now self.now.bias).byte (address + j))) (λ f. First (load_rules elf64 self.now.opened.file.now self.now.bias) f × (out.new ≡ out.old)) }
    {
        self.check()?.image().bytes(&mut Span::new(address, out));
        Ok(())
    }

    // Where the byte at an address will come from, where a segment's pages hold the address.
    pub fn origin(&self, address: u64) -> Result<Option<Origin>, Fault>
        ensures origin { Answers (load_rules elf64 self.now.opened.file.now self.now.bias) (Traced elf64 self.now.opened.file.now self.now.bias address) result }
        ensures byte { (x : Source) → ComesFrom elf64 self.now.opened.file.now self.now.bias address x → (image_of elf64 self.now.opened.file.now self.now.bias).byte address ≡ byte_from elf64 self.now.opened.file.now self.now.bias address x }
    {
        Ok(self.check()?.image().origin(address))
    }

    // Where the bytes from an address on will come from, each as `origin` has it; a refusal leaves the buffer as it was.
    pub fn origins(&self, address: u64, out: &mut [Option<Origin>]) -> Result<(), Fault>
        ensures { MatchResult result (λ _. AllClear (load_rules elf64 self.now.opened.file.now self.now.bias) × ((j : ℕ) → j < length out.old → Traced elf64 self.now.opened.file.now self.now.bias (address + j) (slice_index_or out.new j None))) (λ f. First (load_rules elf64 self.now.opened.file.now self.now.bias) f × (out.new ≡ out.old)) }
    {
        self.check()?.image().origins(&mut Span::new(address, out));
        Ok(())
    }
}
