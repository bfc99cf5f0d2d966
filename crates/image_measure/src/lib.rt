// How much an image of sixteen entries holds, and where its parts start.
#![tactic(auto)]

ghost use Rattle.std.specs.Prelude.{◌≡◌, cond, ◌+◌, ◌^◌, ◌<◌, ◌≤◌, length};
ghost use Rattle.pieces.specs.Memory.{Put};
ghost use Rattle.big_endian.specs.Numbers.{in_bytes};
ghost use Rattle.image_format.specs.Rows.{count};
ghost use Rattle.image_format.specs.Image.{assembled_in, cached_in, upload_start, response_start, total, header};

use entries::Entry;

// How many bytes each entry has of the upload memory, and of the response memory.
#[derive(Clone, Copy)]
pub struct Lengths {
    pub upload: [usize; 16],
    pub response: [usize; 16],
}

// How many rows there are, where the upload bytes and the response bytes start, and where the image ends.
#[derive(Clone, Copy)]
pub struct Extent {
    pub rows: usize,
    pub uploads: usize,
    pub responses: usize,
    pub total: usize,
}

fn assembled_by(e: Entry) -> usize
    ensures { (result ≡ e.state.assembled.len) × (result < 2 ^ 34) }
{
    e.state.assembled.len as usize
}

fn cached_by(e: Entry) -> usize
    ensures { (result ≡ e.state.cached.head + e.state.cached.payload) × (result < 2 ^ 34) }
{
    usize::from(e.state.cached.head) + e.state.cached.payload as usize
}

#[tactic(auto, using(crate::proofs::Turns::map_next, crate::proofs::Turns::map_done))]
pub fn lengths_of(entries: [Entry; 16]) -> Lengths
    ensures { (result.upload ≡ assembled_in entries) × (result.response ≡ cached_in entries) }
{
    let mut upload = [0usize; 16];
    let mut response = [0usize; 16];
    for (i, e) in entries.iter().enumerate() {
        upload[i] = assembled_by(*e);
        response[i] = cached_by(*e);
    }
    Lengths { upload, response }
}

#[tactic(auto, using(crate::proofs::Turns::measured_start, crate::proofs::Turns::measured_next, crate::proofs::Turns::measured_done))]
pub fn measure(entries: [Entry; 16]) -> Extent
    ensures { (result.rows ≡ count entries) × (result.uploads ≡ upload_start entries) × (result.responses ≡ response_start entries) × (result.total ≡ total entries) }
{
    let mut rows: usize = 0;
    let mut upload: usize = 0;
    let mut response: usize = 0;
    for e in &entries {
        rows += usize::from(e.used);
        upload += assembled_by(*e);
        response += cached_by(*e);
    }
    let uploads = 32 + 96 * rows;
    let responses = uploads + upload;
    let total = responses + response;
    Extent {
        rows,
        uploads,
        responses,
        total,
    }
}

fn put_word(out: &mut [u8], at: usize, n: usize) -> usize
    requires { at + 4 ≤ length out.old }
    ensures { (Put out.old at (in_bytes 4 n) out.new result) × (result ≡ at + 4) }
{
    big_endian::put_number(out, at, 4, n as u64)
}

// Writes the header of an image at the start of an output.
pub fn put_header(out: &mut [u8], clock: u64, entries: [Entry; 16]) -> usize
    requires { 32 ≤ length out.old }
    ensures { (Put out.old 0 (header clock entries) out.new result) × (result ≡ 32) }
{
    let n = measure(entries);
    let at = put_word(out, 0, 1);
    let at = put_word(out, at, n.rows);
    let at = put_word(out, at, 32);
    let at = put_word(out, at, n.uploads);
    let at = put_word(out, at, n.responses);
    let at = put_word(out, at, n.total);
    big_endian::put_number(out, at, 8, clock)
}
