// Buffers that stand for what lies from an address on.
ghost use Rattle.std.specs.Prelude.{◌≡◌, ℕ, ◌+◌, ◌^◌, ◌<◌, ◌≤◌, length, slice_index_or};
ghost use Rattle.image.specs.Spans.{Kept};

// A lent buffer with an item for each address from `address` on.
#[derive(Drop)]
pub(crate) struct Span<'a, T> {
    pub(crate) address: u64,
    pub(crate) items: &'a mut [T],
}

impl<'a, T> Span<'a, T> {
    pub(crate) fn new(address: u64, items: &'a mut [T]) -> Span<'a, T>
        ensures { (result.address ≡ address) × (result.items.ghost_name ≡ items.entry.ghost_name) × (result.items.now ≡ items.old) }
    {
        Span { address, items }
    }
}

impl<T: Copy> Span<'_, T> {
    // Sets each item to what `make` gives for its address, and to `none` past the last address.
    pub(crate) fn fill<F: Fn(u64) -> T>(&mut self, none: T, make: F)
        requires { F.IsAlwaysCallable make }
        ensures kept { Kept self.old self.new }
        ensures made { (j : ℕ) (d : T) → j < length self.old.items.now → self.old.address + j < 2 ^ 64 → F.post make (self.old.address + j) (slice_index_or self.new.items.now j d) }
        ensures none { (j : ℕ) (d : T) → j < length self.old.items.now → 2 ^ 64 ≤ self.old.address + j → slice_index_or self.new.items.now j d ≡ none }
    {
        let address = self.address;
        let items = &mut *self.items;
        for (j, item) in items.iter_mut().enumerate() {
            *item = match address.checked_add(j as u64) {
                Some(a) => make(a),
                None => none,
            };
        }
    }
}
