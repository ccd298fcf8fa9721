// A file on its way through the rules: each type carries what the rules before have found. The first three have the same two fields and read the
// same header: one within the other would lengthen every clause on them.
ghost use Rattle.std.specs.Prelude.{◌≡◌, ℕ, ◌+◌, ◌<◌, ◌≤◌, ◌^◌, length, IfSome, MatchOption};
ghost use Rattle.elf.specs.Layouts.{Sound, elf64};
ghost use Rattle.elf.specs.Records.{file_header};
ghost use Rattle.elf.specs.Segments.{header, headers, offset_in, phnum};
ghost use Rattle.elf.specs.Stages.{Inside, Headed, Readable, Extended, Tested};
ghost use Rattle.elf.specs.Props.{layout_props};

use crate::bytes::has;
use crate::layout::{ELF64, Layout};
use crate::records::{FileHeader, ProgramHeader, Record, Table, file_header};
use faults::fault::{Fault, Layer, Reason};
use std::marker::PhantomData;

// A file's bytes, and the layout by which they are read.
#[derive(Clone, Copy)]
pub(crate) struct File<'a> {
    pub(crate) layout: Layout,
    pub(crate) bytes: &'a [u8],
    ghost sound: { Sound layout } by { Prim.hlevel layout_props },
}

// A file that has its header, and no more bytes than the limit.
#[derive(Clone, Copy)]
pub(crate) struct HeadedFile<'a> {
    pub(crate) layout: Layout,
    pub(crate) bytes: &'a [u8],
    ghost headed: { Headed layout bytes.now } by { Prim.hlevel layout_props },
}

// A file whose program headers lie in it.
#[derive(Clone, Copy)]
pub(crate) struct Headers<'a> {
    pub(crate) layout: Layout,
    pub(crate) bytes: &'a [u8],
    ghost readable: { Readable layout bytes.now } by { Prim.hlevel layout_props },
}

// A table of records that lies in the file, all of one kind.
#[derive(Drop)]
pub(crate) struct Records<'a, R: Record> {
    pub(crate) headers: Headers<'a>,
    pub(crate) table: Table,
    pub(crate) kind: PhantomData<R>,
    ghost size: { table.size ≡ R.width headers.layout },
    ghost inside: { Inside table headers.bytes.now },
}

// A file whose dynamic table lies in it, if it has one.
#[derive(Clone, Copy)]
pub(crate) struct Dynamics<'a> {
    pub(crate) headers: Headers<'a>,
    ghost extended: { Extended headers.layout headers.bytes.now } by { Prim.hlevel layout_props },
}

impl<'a> File<'a> {
    pub(crate) fn elf64(bytes: &'a [u8]) -> File<'a>
        ensures { (result.layout ≡ elf64) × (result.bytes.now ≡ bytes.now) }
    {
        File {
            layout: ELF64,
            bytes,
        }
    }

    // The record at an offset, where the file has it whole.
    pub(crate) fn record<R: Record>(&self, at: u64) -> Option<R>
        ensures read { MatchOption result (length self.now.bytes.now < at + R.width self.now.layout) (λ x. (at + R.width self.now.layout ≤ length self.now.bytes.now) × (x ≡ R.reads self.now.layout self.now.bytes.now at)) }
        ensures fits { IfSome result (λ _. at + R.width self.now.layout < 2 ^ 64) }
    {
        if !has(self.bytes, at, R::size(self.layout) as u64) {
            return None;
        }
        Some(R::read(self.layout, self.bytes, at as usize))
    }
}

impl<'a> HeadedFile<'a> {
    pub(crate) fn file(&self) -> File<'a>
        ensures { (result.layout ≡ self.now.layout) × (result.bytes.now ≡ self.now.bytes.now) }
    {
        File {
            layout: self.layout,
            bytes: self.bytes,
        }
    }

    // The file header.
    pub(crate) fn file_header(&self) -> FileHeader
        ensures { result ≡ file_header self.now.layout self.now.bytes.now }
    {
        file_header(self.layout, self.bytes)
    }
}

impl<'a> Headers<'a> {
    pub(crate) fn file(&self) -> File<'a>
        ensures { (result.layout ≡ self.now.layout) × (result.bytes.now ≡ self.now.bytes.now) }
    {
        File {
            layout: self.layout,
            bytes: self.bytes,
        }
    }

    // The file header.
    pub(crate) fn file_header(&self) -> FileHeader
        ensures { result ≡ file_header self.now.layout self.now.bytes.now }
    {
        file_header(self.layout, self.bytes)
    }

    // How many program headers there are.
    #[tactic(auto, unfolding(crate::specs::Records::file_header))]
    pub(crate) fn count(&self) -> u32
        ensures { result ≡ phnum self.now.layout self.now.bytes.now }
    {
        self.file_header().phnum as u32
    }

    // Where the program headers lie.
    #[tactic(auto, unfolding(crate::specs::Records::file_header))]
    pub(crate) fn table(&self) -> Table
        ensures { result ≡ headers self.now.layout self.now.bytes.now }
    {
        let header = self.file_header();
        Table {
            first: header.phoff,
            size: self.layout.header.size as u64,
            count: header.phnum as u32,
        }
    }

    // The program headers as a table of records.
    fn records(&self) -> Records<'a, ProgramHeader>
        ensures same { result.headers ≡ self.now }
        ensures table { result.table ≡ headers self.now.layout self.now.bytes.now }
    {
        Records::new(*self, self.table())
    }

    // The program header `i`. That it is below the count is asked here and by the tests of one header: it says something of the argument and
    // nothing of the file, and a type for such numbers would have to be made where the bound stands now.
    pub(crate) fn get(&self, i: u32) -> ProgramHeader
        requires { i < phnum self.now.layout self.now.bytes.now }
        ensures { result ≡ header self.now.layout self.now.bytes.now i }
    {
        self.records().get(i)
    }

    // Refuses the file for the first header that a test fits.
    pub(crate) fn refuse<F: Fn(u32) -> bool>(&self, reason: Reason, test: F) -> Result<(), Fault>
        requires { (i : ℕ) → i < phnum self.now.layout self.now.bytes.now → F.pre test i }
        ensures { Tested reason (headers self.now.layout self.now.bytes.now) (λ i b. F.post test i b) result }
    {
        self.records().refuse(reason, test)
    }
}

impl<'a, R: Record> Records<'a, R> {
    // The records of a table that lies in the file.
    pub(crate) fn new(headers: Headers<'a>, table: Table) -> Records<'a, R>
        requires size { table.size ≡ R.width headers.layout }
        requires inside { Inside table headers.bytes.now }
        ensures same { result.headers ≡ headers.entry }
        ensures table { result.table ≡ table }
    {
        Records {
            headers,
            table,
            kind: PhantomData,
        }
    }

    // The record `i`. The bound is on the argument, as with headers.
    pub(crate) fn get(&self, i: u32) -> R
        requires { i < self.now.table.count }
        ensures { result ≡ R.reads self.now.headers.layout self.now.headers.bytes.now (offset_in self.now.table i) }
    {
        let at = self.table.offset(i) as usize;
        R::read(self.headers.layout, self.headers.bytes, at)
    }

    // Refuses the file for the first record that a test fits. A loop: the test may be called below the count alone, and with `find` and a closure
    // that calls it there the proof did not close.
    pub(crate) fn refuse<F: Fn(u32) -> bool>(&self, reason: Reason, test: F) -> Result<(), Fault>
        requires { (i : ℕ) → i < self.now.table.count → F.pre test i }
        ensures { Tested reason self.now.table (λ i b. F.post test i b) result }
    {
        for i in 0..self.table.count {
            if test(i) {
                return Err(Fault {
                    reason,
                    layer: Layer::Open,
                    record: i,
                    place: self.table.offset(i),
                });
            }
        }
        Ok(())
    }
}
