// Which frames of a space are free, in a lent buffer with one entry for each frame.
// A free frame's entry is the next free frame, the last one's the number of frames. A used frame's entry is above that: 2^32 - 1 less its page.
// The list of free frames runs through the lent entries: there is no heap, and a frame is given or taken in constant time.
ghost use Rattle.std.specs.Prelude.{◌≡◌, ◌<◌, Decides, MatchOption};
ghost use Rattle.space.specs.Frames.{pool, Released, Takes, Gives, IsUsed};

// The number of frames stands beside the entries: the lent buffer may be longer, and a space of refused figures keeps it whole.
#[derive(Drop)]
pub struct Frames<'a> {
    pub entries: &'a mut [u32],
    pub total: u32,
    pub head: u32,
    pub spare: u32,
}

impl<'a> Frames<'a> {
    // So many frames in a lent buffer, all of them free.
    pub fn new(entries: &'a mut [u32], total: u32) -> Frames<'a>
        ensures { Released (record { entries = entries.old; total = total; head = 0; spare = 0 }) (pool result) }
    {
        let mut frames = Frames {
            entries,
            total,
            head: 0,
            spare: 0,
        };
        frames.release_all();
        frames
    }

    // Makes every frame free.
    pub fn release_all(&mut self)
        ensures { Released (pool self.old) (pool self.new) }
    {
        let entries = &mut *self.entries;
        let count = (self.total as usize).min(entries.len());
        for (i, entry) in entries[..count].iter_mut().enumerate() {
            *entry = i as u32 + 1;
        }
        self.head = 0;
        self.spare = self.total;
    }

    // The first free frame, where one is free.
    pub fn first_free(&self) -> Option<u32>
        ensures { MatchOption result (self.now.spare ≡ 0) (λ f. (0 < self.now.spare) × (f ≡ self.now.head)) }
    {
        (self.spare > 0).then_some(self.head)
    }

    // Gives the first free frame to a page.
    pub fn take(&mut self, page: u32) -> Option<u32>
        ensures { Takes page result (pool self.old) (pool self.new) }
    {
        let frame = self.head;
        let spare = self.spare.checked_sub(1)?;
        let entries = &mut *self.entries;
        let next = entries.get(frame as usize).copied()?;
        // By index, as in `give`: what get_mut lends is not known to a proof after the write.
        entries[frame as usize] = u32::MAX - page;
        self.head = next;
        self.spare = spare;
        Some(frame)
    }

    // Takes a frame back from its page.
    pub fn give(&mut self, frame: u32)
        ensures { Gives frame (pool self.old) (pool self.new) }
    {
        // By index: what a slice's get_mut lends is not known to a proof after the write.
        if (frame as usize) < self.entries.len() && self.spare < u32::MAX {
            self.entries[frame as usize] = self.head;
            self.head = frame;
            self.spare += 1;
        }
    }

    // Whether a page has the frame.
    pub fn is_used(&self, frame: u32) -> bool
        ensures { Decides result (IsUsed (pool self.now) frame) }
    {
        let total = self.total;
        self.entries
            .get(frame as usize)
            .is_some_and(|entry| frame < total && *entry > total)
    }
}
