// The bytes at the start of a memory's sixteen pieces: gathered one after another, and scattered to the pieces again.
#![tactic(auto)]

ghost use Rattle.std.specs.Prelude.{◌≡◌, true, ◌+◌, ◌*◌, ◌≤◌, length, drop};
ghost use Rattle.pieces.specs.Memory.{Put};
ghost use Rattle.gathering.specs.Gather.{sum, Short, gathered, scattered};

// Puts the first bytes of each piece, as many as its length says, at an index, one after another, and answers the next index.
#[tactic(auto, using(crate::proofs::Turns::piece_end))]
pub fn gather(
    out: &mut [u8],
    start: usize,
    memory: &[u8],
    size: usize,
    lengths: [usize; 16],
) -> usize
    requires memory_len { length memory.now ≡ 16 * size }
    requires short { Short size lengths }
    requires lengths_in_bounds { start + sum lengths ≤ length out.old }
    ensures { (Put out.old start (gathered size memory.now 0 lengths) out.new result) × (result ≡ start + sum lengths) }
{
    let mut to = start;
    for (i, n) in lengths.iter().enumerate() {
        let home = i * size;
        let end = home + *n;
        to = pieces::put(out, to, &memory[home..end]);
    }
    to
}

// Copies bytes, from an index on, to the start of each piece, as many as its length says.
#[tactic(auto, using(crate::proofs::Turns::piece_end, crate::proofs::Turns::sum_step, crate::proofs::Turns::scatter_step))]
pub fn scatter(memory: &mut [u8], size: usize, lengths: [usize; 16], bytes: &[u8], start: usize)
    requires memory_len { length memory.old ≡ 16 * size }
    requires short { Short size lengths }
    requires lengths_in_bounds { start + sum lengths ≤ length bytes.now }
    ensures { memory.new ≡ scattered size memory.old 0 lengths (drop start bytes.now) }
{
    let mut at = start;
    for (i, n) in lengths.iter().enumerate() {
        let end = at + *n;
        pieces::copy_in(memory, i * size, &bytes[at..end]);
        at = end;
    }
}
