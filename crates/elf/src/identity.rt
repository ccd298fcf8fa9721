// The checks of the file's length, its identification, its header and the table of its program headers.
ghost use Rattle.std.specs.Prelude.{◌≡◌, ℕ, ◌+◌, ◌<◌, ◌≤◌, ◌++◌, length, Decides, MatchOption, ◌≢◌, slice_index};
ghost use Rattle.faults.specs.Rules.{Answers, Checked, Tried};
ghost use Rattle.elf.specs.Searches.{Lowest};
ghost use Rattle.elf.specs.Segments.{bad_length, bad_magic, bad_identity, identity_rules, kind_rules, size_rules, bad_count, past_end, table_rules, phnum};

use crate::kinds::FileType;
use crate::records::HeaderReader;
use crate::stages::{File, HeadedFile, Headers};
use faults::fault::{Fault, Layer, Reason};

const MAGIC: [u8; 4] = [0x7f, 0x45, 0x4c, 0x46];

// The only machine that is taken, so no enum says more than the number.
const RISCV: u16 = 243;

// The bit of the flags that asks for the embedded base, which has half the registers. The only one that is refused, so no enum here either.
const EMBEDDED: u32 = 3;

// The refusal of a file as a whole: it names a place and no record.
pub(crate) fn refusal(reason: Reason, place: u64) -> Fault
    ensures { result ≡ record { reason = reason; layer = Layer.Open; «record» = 0; place = place } }
{
    Fault::new(Layer::Open, reason, place)
}

// The first of the expected bytes that the file does not have from the offset `at` on.
fn first_difference(file: &[u8], at: usize, expected: &[u8]) -> Option<usize>
    requires { at + length expected.now ≤ length file.now }
    ensures { MatchOption result ((i : ℕ) → i < length expected.now → slice_index file.now (at + i) ≡ slice_index expected.now i) (λ i. Lowest (length expected.now) (λ j. slice_index file.now (at + j) ≢ slice_index expected.now j) i) }
{
    file[at..].iter().zip(expected).position(|(a, b)| a != b)
}

impl<'a> File<'a> {
    // Whether the file is long enough to have its header.
    pub(crate) fn has_header(&self) -> bool
        ensures { Decides result (self.now.layout.file.size ≤ length self.now.bytes.now) }
    {
        self.bytes.len() >= self.layout.file.size
    }

    fn check_length(&self) -> Result<(), Fault>
        ensures { Checked (bad_length self.now.layout self.now.bytes.now) result }
    {
        let length = self.bytes.len();
        if !self.has_header() || length > self.layout.limits.file {
            return Err(refusal(Reason::FileLength, length as u64));
        }
        Ok(())
    }

    fn check_magic(&self) -> Result<(), Fault>
        requires { 24 ≤ length self.now.bytes.now }
        ensures { Checked (bad_magic self.now.bytes.now) result }
    {
        match first_difference(self.bytes, 0, &MAGIC) {
            None => Ok(()),
            Some(_) => Err(refusal(Reason::Magic, 0)),
        }
    }

    fn check_class(&self) -> Result<(), Fault>
        requires { 24 ≤ length self.now.bytes.now }
        ensures { Checked (bad_identity self.now.layout self.now.bytes.now) result }
    {
        let expected = [self.layout.class, 1, 1, 0];
        match first_difference(self.bytes, 4, &expected) {
            None => Ok(()),
            Some(i) => Err(refusal(Reason::Identification, 4 + i as u64)),
        }
    }

    // The file, with its header.
    pub(crate) fn check_identity(&self) -> Result<HeadedFile<'a>, Fault>
        ensures { Answers (identity_rules self.now.layout self.now.bytes.now) (λ f. (f.layout ≡ self.now.layout) × (f.bytes.now ≡ self.now.bytes.now)) result }
    {
        self.check_length()?;
        self.check_magic()?;
        self.check_class()?;
        Ok(HeadedFile {
            layout: self.layout,
            bytes: self.bytes,
        })
    }
}

impl<'a> HeadedFile<'a> {
    #[tactic(auto, unfolding(crate::specs::Records::file_header))]
    fn check_kind(&self) -> Result<(), Fault>
        ensures { Tried (kind_rules self.now.layout self.now.bytes.now) result }
    {
        let header = self.file_header();
        if !header.is(FileType::Static) && !header.is(FileType::Independent) {
            return Err(refusal(Reason::FileHeader, 16));
        }
        if header.machine != RISCV {
            return Err(refusal(Reason::FileHeader, 18));
        }
        if header.version != 1 {
            return Err(refusal(Reason::FileHeader, 20));
        }
        Ok(())
    }

    #[tactic(auto, unfolding(crate::specs::Records::file_header))]
    fn check_sizes(&self) -> Result<(), Fault>
        ensures { Tried (size_rules self.now.layout self.now.bytes.now) result }
    {
        let l = self.layout;
        let header = self.file_header();
        if (header.flags >> EMBEDDED) % 2 == 1 {
            return Err(refusal(Reason::FileHeader, l.file.flags as u64));
        }
        if header.ehsize as usize != l.file.size {
            return Err(refusal(Reason::FileHeader, l.file.ehsize as u64));
        }
        if header.phentsize as usize != l.header.size {
            return Err(refusal(Reason::FileHeader, l.file.phentsize as u64));
        }
        Ok(())
    }

    #[tactic(auto, unfolding(crate::specs::Records::file_header))]
    fn check_count(&self) -> Result<(), Fault>
        ensures { Checked (bad_count self.now.layout self.now.bytes.now) result }
    {
        let l = self.layout;
        let count = self.file_header().phnum;
        if count == 0 || count > l.limits.headers {
            return Err(refusal(Reason::HeaderCount, l.file.phnum as u64));
        }
        Ok(())
    }

    // Reads every program header, and refuses the file where its end cuts one short. Headers come from a reader and the first that is cut short
    // is refused where it is met: that is a rule of the project, so there is a loop and no chain.
    #[tactic(auto, unfolding(crate::specs::Records::file_header))]
    fn check_inside(&self) -> Result<(), Fault>
        requires { 0 < phnum self.now.layout self.now.bytes.now }
        ensures { Checked (past_end self.now.layout self.now.bytes.now) result }
    {
        let l = self.layout;
        let header = self.file_header();
        let mut reader = HeaderReader::new(self.file(), header.phoff);
        for _i in 0..header.phnum {
            let Some(_) = reader.next() else {
                return Err(refusal(Reason::HeadersPastEnd, l.file.phoff as u64));
            };
        }
        Ok(())
    }

    // The file, with its program headers: the rules on the header and on the table of program headers.
    pub(crate) fn check(&self) -> Result<Headers<'a>, Fault>
        ensures { Answers (kind_rules self.now.layout self.now.bytes.now ++ (size_rules self.now.layout self.now.bytes.now ++ table_rules self.now.layout self.now.bytes.now)) (λ h. (h.layout ≡ self.now.layout) × (h.bytes.now ≡ self.now.bytes.now)) result }
    {
        self.check_kind()?;
        self.check_sizes()?;
        self.check_headers()
    }

    fn check_headers(&self) -> Result<Headers<'a>, Fault>
        ensures { Answers (table_rules self.now.layout self.now.bytes.now) (λ h. (h.layout ≡ self.now.layout) × (h.bytes.now ≡ self.now.bytes.now)) result }
    {
        self.check_count()?;
        self.check_inside()?;
        let headers = Headers {
            layout: self.layout,
            bytes: self.bytes,
        };
        headers.check_interpreter()?;
        headers.check_load_count()?;
        Ok(headers)
    }
}
