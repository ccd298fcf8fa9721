// Where the byte at an address comes from.

#[derive(Clone, Copy, PartialEq, Eq, Debug)]
pub enum Origin {
    // The file, at this offset.
    File(u64),
    // The word of the relocation of this number.
    Word(u32),
    // Nothing: it lies in a segment's memory behind its file bytes, and is zero.
    Inside,
    // Nothing: it lies on a segment's page around its memory, and is zero.
    Around,
}
