// The lines that a replay has beyond a script's, and what is printed for a fresh start.
#![tactic(auto)]

use config::Config;

mod lines;

pub use lines::{control_of, put_config};

// What a line asks for that is no call.
#[derive(Clone, Copy)]
pub enum Control {
    // A fresh start under this configuration.
    Fresh(Config),
    // The state shown.
    Show,
}
