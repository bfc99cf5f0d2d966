// The lines that a replay has besides calls: a fresh start under another configuration, and the state shown.
ghost use Rattle.std.specs.Prelude.{◌≡◌, ◌+◌, ◌≤◌, length, drop};
ghost use Rattle.pieces.specs.Memory.{Put};
ghost use Rattle.script_cut.specs.Cut.{texts};
ghost use Rattle.replay_control.specs.Control.{config_of, start_of, control_of, config_text};

use crate::Control;
use config::Config;
use script_cut::{Six, split_six};
use script_fields::number_field;

// The last four fields of a fresh start: T, LIFETIME, U and V.
fn config_of(strict: bool, six: Six<'_>) -> Option<Config>
    ensures { result ≡ config_of strict (texts six.entry) }
{
    let limit = number_field(six.third)? as usize;
    let lifetime = number_field(six.fourth)?;
    let upload = number_field(six.fifth)? as usize;
    let response = number_field(six.sixth)? as usize;
    Some(Config {
        strict,
        limit,
        lifetime,
        upload,
        response,
    })
}

// The six fields of a fresh start: `C` and MODE come first.
fn start_of(six: Six<'_>) -> Option<Config>
    ensures { result ≡ start_of (texts six.entry) }
{
    if six.first != b"C".as_slice() {
        return None;
    }
    if six.second == b"strict".as_slice() {
        return config_of(true, six);
    }
    if six.second == b"plain".as_slice() {
        return config_of(false, six);
    }
    None
}

// `C MODE T LIFETIME U V`, or `S`; any other line is no control line.
pub fn control_of(line: &[u8]) -> Option<Control>
    ensures { result ≡ control_of line.now }
{
    if line == b"S".as_slice() {
        return Some(Control::Show);
    }
    let six = split_six(line, 0)?;
    let config = start_of(six)?;
    Some(Control::Fresh(config))
}

// `N config - - -`
pub fn put_config(out: &mut [u8], at: usize, n: u64) -> usize
    requires { at + 50 ≤ length out.old }
    ensures put { Put out.old at (config_text n) out.new result }
    ensures upper_bound { result ≤ at + 50 }
{
    let k = script_text::put_decimal(out, at, n);
    pieces::put(out, k, b" config - - -\n")
}
