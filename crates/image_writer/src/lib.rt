// Saving the live entries of a table, with their bytes, as an image.
#![tactic(auto)]

ghost use Rattle.std.specs.Prelude.{◌≡◌, length};
ghost use Rattle.pieces.specs.Memory.{patch};
ghost use Rattle.call.specs.Contract.{world};
ghost use Rattle.image_format.specs.Image.{image_bytes};
ghost use Rattle.image_writer.specs.Save.{live_entries, image_with, length_asked, saved, output_after};
ghost use Rattle.image_measure.specs.Room.{Rooms};

use block_table::Table;
use config::Config;
use entries::Entry;

// A refusal, or 0, and how many bytes the image has: where the output is too small, how many it needs.
// A struct with a number, and no Result: it is laid out for a caller in C.
#[repr(C)]
#[derive(Clone, Copy)]
pub struct Saved {
    pub refusal: u8,
    pub length: usize,
}

const OFF_LIMITS: Saved = Saved {
    refusal: 1,
    length: 0,
};

fn live_entries(config: Config, table: Table) -> [Entry; 16]
    ensures { (result ≡ live_entries config table) × (length result ≡ 16) }
{
    block_table::sweep_row(table.entries, config.lifetime, table.clock)
}

// How many bytes the image of a table has, for a caller to ask first.
#[tactic(auto, unfolding(crate::specs::Save::length_asked))]
pub fn image_length(table: Table, config: Config) -> Saved
    ensures { result ≡ length_asked config table }
{
    if !table_limits::lone_ok(config, table) {
        return OFF_LIMITS;
    }
    let entries = live_entries(config, table);
    let length = image_measure::measure(entries).total;
    Saved { refusal: 0, length }
}

// Writes an image of these entries at the start of an output that has room for it.
fn put_image(
    config: Config,
    clock: u64,
    entries: [Entry; 16],
    upload: &[u8],
    response: &[u8],
    out: &mut [u8],
)
    requires { Rooms config entries (length upload.now) (length response.now) (length out.old) }
    ensures { out.new ≡ patch out.old 0 (image_bytes (image_with config clock entries upload.now response.now)) }
{
    let lengths = image_measure::lengths_of(entries);
    let at = image_measure::put_header(out, clock, entries);
    let at = image_rows::put_rows(out, at, entries);
    let at = gathering::gather(out, at, upload, config.upload, lengths.upload);
    gathering::gather(out, at, response, config.response, lengths.response);
}

// Saves the entries that are live at the table's clock. The output is written only if the image has room in it.
#[tactic(auto, unfolding(crate::specs::Save::saved, crate::specs::Save::output_after))]
pub fn save(table: Table, config: Config, upload: &[u8], response: &[u8], out: &mut [u8]) -> Saved
    ensures { (result ≡ saved config (world table upload.now response.now) (length out.old))
        × (out.new ≡ output_after config (world table upload.now response.now) out.old result) }
{
    if !table_limits::within_limits(config, table, upload.len(), response.len()) {
        return OFF_LIMITS;
    }
    let entries = live_entries(config, table);
    let length = image_measure::measure(entries).total;
    if out.len() < length {
        return Saved {
            refusal: 22,
            length,
        };
    }
    put_image(config, table.clock, entries, upload, response, out);
    Saved { refusal: 0, length }
}
