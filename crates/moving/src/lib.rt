// Bytes moved within a lent memory.
#![tactic(auto)]

ghost use Rattle.std.specs.Prelude.{◌≡◌, ◌+◌, ◌≤◌, length};
ghost use Rattle.pieces.specs.Memory.{patch, part};

// Moves the n bytes at from to index to.
#[tactic(auto, using(pieces::proofs::Memory::length_part), unfolding(pieces::specs::Memory::patch, pieces::specs::Memory::part))]
pub fn shift(mem: &mut [u8], from: usize, to: usize, n: usize)
    requires n_in_bounds { from + n ≤ length mem.old }
    requires n_in_bounds_2 { to + n ≤ length mem.old }
    ensures { mem.new ≡ patch mem.old to (part mem.old from n) }
{
    // Bytes that stay where they are cost nothing.
    if from != to {
        mem.copy_within(from..from + n, to);
    }
}

// Moves the n bytes at from down to index to.
pub fn move_left(mem: &mut [u8], from: usize, to: usize, n: usize)
    requires to_le_from { to ≤ from }
    requires n_in_bounds { from + n ≤ length mem.old }
    ensures { mem.new ≡ patch mem.old to (part mem.old from n) }
{
    shift(mem, from, to, n);
}
