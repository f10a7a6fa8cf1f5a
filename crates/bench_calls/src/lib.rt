// The steps that bench/ measures, for C to call. Nothing else uses them: a host has its own calls.
//
// Rests on `sound`, `script`, `record` and `rows`. Each is proved safe for every input; what it does is the
// contract of the function that it calls.
#![tactic(auto)]

use script::table::{put_row, take_row};
use script::{ROW, ROWS, TABLE};

// Or-s all bytes together: the least that a look at every byte costs.
#[unsafe(no_mangle)]
pub extern "C" fn bench_all_zero(bytes: &[u8]) -> bool {
    rows::moves::all_zero(bytes)
}

// Whether the record of 67 bytes and the table are sound.
#[unsafe(no_mangle)]
pub extern "C" fn bench_sound(record: &[u8], table: &[u8]) -> bool {
    sound::sound(record::read(record), table)
}

// Puts a row in at row 0 of a table with these rows in use, at most 511.
#[unsafe(no_mangle)]
pub extern "C" fn bench_row_in(table: &mut [u8], rows: usize, row: &[u8; ROW]) {
    if table.len() == TABLE && rows < ROWS {
        put_row(table, rows, 0, row);
    }
}

// Takes row 0 out of a table with these rows in use, 1 to 512.
#[unsafe(no_mangle)]
pub extern "C" fn bench_row_out(table: &mut [u8], rows: usize) {
    if table.len() == TABLE && (1..=ROWS).contains(&rows) {
        take_row(table, rows, 0);
    }
}
