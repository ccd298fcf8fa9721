// Writes to the memory of a space.
ghost use Rattle.space.specs.Memory.{Wiped};

// Makes `count` bytes from `at` on zero, where they lie in the memory.
pub fn wipe(memory: &mut [u8], at: usize, count: usize)
    ensures { Wiped at count memory.old memory.new }
{
    let length = memory.len();
    if count <= length && at <= length - count {
        memory[at..at + count].fill(0);
    }
}
