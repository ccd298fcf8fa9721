// The words that relocations put.
ghost use Rattle.std.specs.Prelude.{◌≡◌, ◌+◌, ◌-◌, ◌^◌, ◌<◌, ◌&&◌, if◌then◌else◌, nat_eq, nat_le, nat_lt};
ghost use Rattle.elf.specs.Layouts.{elf64};
ghost use Rattle.image.specs.Prescribed.{word_of, byte_of, reaches};
ghost use Rattle.image.specs.Spans.{Kept, Puts};

use crate::span::Span;
use elf::kinds::RelocationType;
use elf::records::Relocation;

// The word: bias plus addend, modulo 2^64.
pub fn word_of(bias: u64, addend: i64) -> u64
    ensures { result ≡ word_of elf64 bias addend }
{
    bias.wrapping_add(addend.cast_unsigned())
}

impl Span<'_, u8> {
    // Puts a byte at an address, where the buffer holds it.
    fn put_byte(&mut self, target: u64, byte: u8)
        ensures kept { Kept self.old self.new }
        ensures put { Puts self.old self.new (λ a old. if nat_eq a target then byte else old) }
    {
        let Some(at) = target.checked_sub(self.address) else {
            return;
        };
        let items = &mut *self.items;
        // Written by index: what is written through `get_mut` gets no proof.
        if at < items.len() as u64 {
            items[at as usize] = byte;
        }
    }

    // Puts the bytes of a word from an address on, as far as the buffer holds them.
    fn put_word(&mut self, target: u64, word: u64)
        requires { target + 8 < 2 ^ 64 }
        ensures kept { Kept self.old self.new }
        ensures put { Puts self.old self.new (λ a old. if nat_le target a && nat_lt a (target + 8) then byte_of word (a - target) else old) }
    {
        for (k, byte) in word.to_le_bytes().iter().enumerate() {
            self.put_byte(target + k as u64, *byte);
        }
    }

    // Puts the word of a relocation, if it is one that puts a word.
    pub(crate) fn relocate(&mut self, bias: u64, r: &Relocation)
        requires { r.now.kind ≡ 3 → bias + r.now.offset + 8 < 2 ^ 64 }
        ensures kept { Kept self.old self.new }
        ensures put { Puts self.old self.new (λ a old. if reaches elf64 bias a r.now then byte_of (word_of elf64 bias r.now.addend) (a - (bias + r.now.offset)) else old) }
    {
        if r.is(RelocationType::Relative) {
            self.put_word(bias + r.offset, word_of(bias, r.addend));
        }
    }
}
