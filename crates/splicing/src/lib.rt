// The splice of a block into one piece of lent memory.
#![tactic(auto)]

ghost use Rattle.std.specs.Prelude.{◌≡◌, ◌+◌, ◌-◌, ◌^◌, ◌≤◌, ◌<◌, max, length};
ghost use Rattle.splicing.specs.Splice.{spliced_length, splice_of, piece_after, left_by, room_in};

use refusal::Refusal;

// The most that a block may end past what is assembled.
const MAXIMUM_UNCOMMITTED_BUFFER_RESERVE_LENGTH: usize = 16384;

// Makes room for a payload that stands from at on up to the index to, in place of the bytes up to end: of the first len bytes, those from end on are moved to where
// it ends; where it starts past them, zeros stand between.
fn make_room(piece: &mut [u8], len: usize, at: usize, end: usize, to: usize)
    requires len_in_bounds { len ≤ length piece.old }
    requires at_le_to { at ≤ to }
    requires end_in_bounds { to + (len - end) ≤ length piece.old }
    ensures { piece.new ≡ room_in piece.old len at end to }
{
    if end < len {
        moving::shift(piece, end, to, len - end);
        return;
    }
    if len < at {
        pieces::zero_fill(piece, len, at - len);
    }
}

// Replaces the size bytes at index at of the piece's first len bytes by the payload.
fn replace(piece: &mut [u8], len: usize, at: usize, size: usize, payload: &[u8])
    requires size_bound { at + size ≤ len + 16384 }
    requires len_in_bounds { len ≤ length piece.old }
    requires payload_in_bounds { spliced_length len at size (length payload.now) ≤ length piece.old }
    ensures { piece.new ≡ piece_after piece.old len at size payload.now }
{
    make_room(piece, len, at, at + size, at + payload.len());
    pieces::copy_in(piece, at, payload);
}

// The new length of the body, by numbers alone: of room bytes len are assembled, and the payload has p.
fn splice_of(room: usize, len: usize, at: usize, size: usize, p: usize) -> Result<usize, Refusal>
    requires { len < 2 ^ 63 }
    ensures { result ≡ splice_of room len at size p }
{
    let reach = len + MAXIMUM_UNCOMMITTED_BUFFER_RESERVE_LENGTH;
    if reach < size {
        return Err(Refusal::Jump);
    }
    if reach - size < at {
        return Err(Refusal::Jump);
    }
    let kept = len.max(at + size) - size;
    if room < kept {
        return Err(Refusal::NoRoom);
    }
    if room - kept < p {
        return Err(Refusal::NoRoom);
    }
    Ok(kept + p)
}

// Splices a block's payload into the piece, of which the first len bytes are assembled, and answers the new length of the body. A refusal changes nothing.
pub fn extending_splice(
    piece: &mut [u8],
    len: usize,
    at: usize,
    size: usize,
    payload: &[u8],
) -> Result<usize, Refusal>
    requires { len ≤ length piece.old }
    ensures value { result ≡ splice_of (length piece.old) len at size (length payload.now) }
    ensures piece_after { piece.new ≡ left_by result piece.old len at size payload.now }
{
    let n = splice_of(piece.len(), len, at, size, payload.len())?;
    replace(piece, len, at, size, payload);
    Ok(n)
}
