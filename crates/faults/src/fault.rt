// A refusal: why, by which layer, of which record and at which place.
ghost use Rattle.std.specs.Prelude.{◌≡◌};
ghost use Rattle.faults.specs.Numbers.{reason_number, layer_number};

use thiserror::Error;

// Why a call refuses. Each reason has its number and its words.
#[derive(Clone, Copy, PartialEq, Eq, Debug, Error)]
pub enum Reason {
    #[error("the file is shorter than its header or longer than the loader takes")]
    FileLength = 1,
    #[error("the file does not begin with the ELF magic number")]
    Magic = 2,
    #[error("class, data encoding, version or OS ABI is not the one the loader takes")]
    Identification = 3,
    #[error("a field of the file header has a value the loader does not take")]
    FileHeader = 4,
    #[error("there are no program headers, or too many")]
    HeaderCount = 5,
    #[error("the program headers pass the end of the file")]
    HeadersPastEnd = 6,
    #[error("the file asks for an interpreter")]
    Interpreter = 7,
    #[error("there are no load segments, or too many")]
    LoadCount = 8,
    #[error("a load segment is empty, larger in the file than in memory, or past the end of the file")]
    SegmentSize = 9,
    #[error("a load segment's alignment is no power of two, or its address and offset do not agree")]
    SegmentAlignment = 10,
    #[error("a load segment has no rights, or is both writable and executable")]
    SegmentFlags = 11,
    #[error("a load segment ends past the address space")]
    SegmentEnd = 12,
    #[error("a load segment does not begin above the last page of the one before")]
    SegmentOrder = 13,
    #[error("the entry point is odd or in no executable segment")]
    EntryPoint = 14,
    #[error("there are two dynamic headers, or the one has a bad size or passes the end of the file")]
    DynamicExtent = 15,
    #[error("the dynamic table has no end tag")]
    DynamicEnd = 16,
    #[error("a dynamic entry has a tag the loader does not take, or repeats one")]
    DynamicTag = 17,
    #[error("the relocation table is described in part only, or lies outside the file bytes of a segment")]
    RelocationTable = 18,
    #[error("a relocation has a type or a symbol the loader does not take")]
    RelocationType = 19,
    #[error("a relocation's word is misaligned or in no writable segment")]
    RelocationTarget = 20,
    #[error("the bias is no multiple of the page size, or not 0 for a static file")]
    BiasValue = 21,
    #[error("with this bias the file ends past the address space")]
    BiasEnd = 22,
    #[error("there is no slot of that number")]
    SlotNumber = 23,
    #[error("the slot has an image already")]
    SlotTaken = 24,
    #[error("a page lies outside the window of the address space")]
    OutsideWindow = 25,
    #[error("a page is mapped already")]
    PageMapped = 26,
    #[error("there are too few free frames")]
    NoRoom = 27,
    #[error("the slot is empty")]
    SlotEmpty = 28,
    #[error("the access is longer than a page")]
    AccessLength = 29,
    #[error("the address of a fetch is odd")]
    OddFetch = 30,
    #[error("the address is not mapped")]
    AddressUnmapped = 31,
    #[error("the page does not have the right that the access needs")]
    RightMissing = 32,
    #[error("the rights are not lawful")]
    RightsNumber = 33,
    #[error("the page is not mapped")]
    PageUnmapped = 34,
    #[error("no page has that frame, or the index is outside it")]
    FrameUnused = 35,
    #[error("the figures make no address space")]
    SpaceFigures = 36,
    #[error("the output is too short")]
    OutputLength = 37,
}

// Which layer refuses: the one whose call it is.
#[derive(Clone, Copy, PartialEq, Eq, Debug)]
pub enum Layer {
    Open = 1,
    Plan = 2,
    Process = 3,
    Space = 4,
    Dump = 5,
}

// A refusal. Record and place are 0 where the reason names none: they stay numbers, for the interface says what a refusal shows.
#[derive(Clone, Copy, PartialEq, Eq, Debug)]
pub struct Fault {
    pub reason: Reason,
    pub layer: Layer,
    pub record: u32,
    pub place: u64,
}

impl From<Reason> for u8 {
    ghost from_gives = { λ reason number. number ≡ reason_number reason };

    fn from(reason: Reason) -> u8 {
        reason as u8
    }
}

impl From<Layer> for u8 {
    ghost from_gives = { λ layer number. number ≡ layer_number layer };

    fn from(layer: Layer) -> u8 {
        layer as u8
    }
}

impl Reason {
    // The number by which the rules, the documents and the programs know this reason.
    pub fn number(self) -> u8
        ensures { result ≡ reason_number self }
    {
        u8::from(self)
    }
}

impl Layer {
    pub fn number(self) -> u8
        ensures { result ≡ layer_number self }
    {
        self.into()
    }
}

impl Fault {
    // A refusal that names a place and no record.
    pub fn new(layer: Layer, reason: Reason, place: u64) -> Fault
        ensures { result ≡ record { reason = reason; layer = layer; «record» = 0; place = place } }
    {
        Fault {
            reason,
            layer,
            record: 0,
            place,
        }
    }
}
