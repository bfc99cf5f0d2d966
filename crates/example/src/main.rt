// A lane takes a price list of one block, and shows it.
#![tactic(auto)]

use block_state::RequestNumbers;

fn main() {
    let config = config::default_config(true, 1024, 1024); // strict mode, pieces of 1 KiB
    let table = block_table::fresh();
    let mut upload = [0u8; 16384];
    let response = [0u8; 16384];
    let block1 = [0u8; 1]; // block 0 of 16 bytes, the last
    let numbers = RequestNumbers {
        time: 0,
        bare: 20,
        given1: true, // it has a Block1 option
        given2: false,
    };
    let out = block_handler::intercept_request(
        config,
        table,
        &mut upload,
        &response,
        numbers,
        b"lane 7",
        &block1,
        b"",
        b"milk 1.19\n",
    );
    io::write_all(1, answers::body(out.answer, b"milk 1.19\n", &upload));
}
