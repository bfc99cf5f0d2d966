// Loading an image into a fresh table: judged first, as a whole, before a byte is written.
#![tactic(auto)]

ghost use Rattle.std.specs.Prelude.{◌≡◌, ◌&&◌, ◌+◌, ◌*◌, ◌^◌, ◌<◌, ◌≤◌, length, take, drop, eqb, is_some, IfSome};
ghost use Rattle.pieces.specs.Memory.{part};
ghost use Rattle.big_endian.specs.Numbers.{number_at};
ghost use Rattle.gathering.specs.Gather.{scattered};
ghost use Rattle.keys.specs.Keys.{same};
ghost use Rattle.block_table.specs.Table.{table_of};
ghost use Rattle.judge.specs.Limits.{config_ok, memories_ok};
ghost use Rattle.call.specs.Contract.{world};
ghost use Rattle.image_format.specs.Rows.{rows_from, count};
ghost use Rattle.image_format.specs.Image.{assembled_in, cached_in, upload_start, response_start, total, header, read_image, image_ok};
ghost use Rattle.image_measure.specs.Room.{Rooms};
ghost use Rattle.image_reader.specs.Load.{is_fresh, loading, loaded, number, refusal_of, table_left};

use block_table::Table;
use config::Config;
use entries::Entry;

// Why an image is not loaded.
#[derive(Clone, Copy, PartialEq, Eq)]
pub enum LoadRefusal {
    // The table isn't fresh, or the configuration or a memory is off its limits.
    NotFresh,
    // Counts, offsets or rows disagree, or the table that they describe is off the limits.
    NotRight,
}

impl LoadRefusal {
    pub fn number(self) -> u8
        ensures { result ≡ number self }
    {
        match self {
            LoadRefusal::NotFresh => 1,
            LoadRefusal::NotRight => 12,
        }
    }
}

// Whether the header of these entries stands at the image's start, byte by byte.
#[tactic(auto, using(crate::proofs::Loading::whole))]
fn same_header(image: &[u8], clock: u64, entries: [Entry; 16]) -> bool
    requires { 32 ≤ length image.now }
    ensures { result ≡ same (header clock entries) (take 32 image.now) }
{
    let mut written = [0u8; 32];
    image_measure::put_header(&mut written, clock, entries);
    keys::same_bytes(&written, &image[..32])
}

// Whether these entries are written as the image's header and rows, and its length is their total.
fn same_image(image: &[u8], clock: u64, entries: [Entry; 16]) -> bool
    requires { (32 ≤ length image.now) × (32 + 96 * count entries ≤ length image.now) }
    ensures { result ≡ (same (header clock entries) (take 32 image.now) && same (rows_from 0 entries) (part image.now 32 (96 * count entries))
        && eqb (length image.now) (total entries)) }
{
    let extent = image_measure::measure(entries);
    same_header(image, clock, entries)
        && image_rows::same_rows(image, entries)
        && image.len() == extent.total
}

// Reads n rows, which the image has, and judges it by them.
fn judge_rows(config: Config, image: &[u8], n: usize) -> Option<Table>
    requires { (n ≡ number_at image.now 4 4) × (n ≤ 16) × (32 + 96 * n ≤ length image.now) }
    ensures ok { is_some result ≡ image_ok config image.now }
    ensures table { IfSome result (λ t. t ≡ table_of (read_image image.now).clock (read_image image.now).entries) }
{
    let entries = image_rows::read_rows(image, n);
    let clock = big_endian::number_at(image, 24, 8);
    let table = table_limits::table_of(clock, entries);
    let ok = same_image(image, clock, entries) && table_limits::table_ok(config, table);
    ok.then_some(table)
}

// How many rows the header says there are.
fn rows_in(image: &[u8]) -> usize
    requires { 32 ≤ length image.now }
    ensures { (result ≡ number_at image.now 4 4) × (result < 2 ^ 32) }
{
    big_endian::number_at(image, 4, 4) as usize
}

// The table that an image describes, if it is one to load. Counts are judged before they are used.
#[tactic(auto, using(crate::proofs::Loading::no_image))]
fn judge(config: Config, image: &[u8]) -> Option<Table>
    ensures ok { is_some result ≡ image_ok config image.now }
    ensures table { IfSome result (λ t. t ≡ table_of (read_image image.now).clock (read_image image.now).entries) }
{
    if image.len() < 32 {
        return None;
    }
    let n = rows_in(image);
    if 16 < n {
        return None;
    }
    if image.len() < 32 + 96 * n {
        return None;
    }
    judge_rows(config, image, n)
}

// ---- Loading

#[tactic(auto, unfolding(crate::specs::Load::is_fresh))]
fn fresh_ok(config: Config, table: Table, u: usize, v: usize) -> bool
    ensures { result ≡ (config_ok config && memories_ok config u v && is_fresh config table) }
{
    judge::numbers_ok(config, u, v)
        && table_limits::table_ok(config, table)
        && table_limits::is_empty(table)
}

// Copies the bytes of an image that these entries describe to the start of their pieces.
fn put_bytes(
    config: Config,
    entries: [Entry; 16],
    upload: &mut [u8],
    response: &mut [u8],
    image: &[u8],
)
    requires { Rooms config entries (length upload.old) (length response.old) (length image.now) }
    ensures { (upload.new ≡ scattered config.upload upload.old 0 (assembled_in entries) (drop (upload_start entries) image.now))
        × (response.new ≡ scattered config.response response.old 0 (cached_in entries) (drop (response_start entries) image.now)) }
{
    let extent = image_measure::measure(entries);
    let lengths = image_measure::lengths_of(entries);
    gathering::scatter(upload, config.upload, lengths.upload, image, extent.uploads);
    gathering::scatter(
        response,
        config.response,
        lengths.response,
        image,
        extent.responses,
    );
}

// Loads an image into a fresh table: the new table, with its bytes in the memories. They are written only if the whole image is right.
#[tactic(auto, unfolding(crate::specs::Load::loaded, crate::specs::Load::fresh_ok))]
pub fn load(
    table: Table,
    config: Config,
    upload: &mut [u8],
    response: &mut [u8],
    image: &[u8],
) -> Result<Table, LoadRefusal>
    ensures { loaded config (world table upload.old response.old) image.now
        ≡ loading (refusal_of result) (world (table_left table result) upload.new response.new) }
{
    if !fresh_ok(config, table, upload.len(), response.len()) {
        return Err(LoadRefusal::NotFresh);
    }
    let Some(new) = judge(config, image) else {
        return Err(LoadRefusal::NotRight);
    };
    put_bytes(config, new.entries, upload, response, image);
    Ok(new)
}
