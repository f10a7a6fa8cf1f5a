// The calls of a host program in C (01, 'What is built': "The scheduler is a host program in C and calls
// these with numbers and byte slices"). `host_c` exports them for the archive that it links;
// include/script_replica.h declares these functions and says what each promises.
//
// Rests on `lent` for the operations over a lent record and on `replica` for comparing, on `record` for its 67
// bytes and on `reader` for the first patch of a run. Start, insert, delete and receive read the record, make the
// operation's call and write the record back; reading a row's text only reads it; the other two calls have none.
// Each takes any bytes, of any length, and any numbers. What a call gives is the operation's own definition (its
// crate's specs/), said of bytes in specs/Calls.antt. A slice is a pointer and then a length for C.
//
// A record's bytes are called `state` here: `record` is a word of the proof language.
#![tactic(auto)]

mod lacks;

ghost use Rattle.std.specs.Prelude.{◌≡◌};
ghost use Rattle.format.specs.Answers.{done_number, length_given};
ghost use Rattle.host.specs.Calls.{start_bytes, insert_bytes, delete_bytes, receive_bytes, row_text, compare_bytes, first_patch};

use format::answers::{Refusal, Success, number};
use lacks::{LACKS, write_lacks};
use lent::{delete, insert, read_row, receive, start};
use reader::read_first;
use record::{COUNTS, RECORD, read, read_counts, write};
use replica::compare::compare_counts;
use script::table::text_start;

// The answers are numbers here, and what a call gives beside its answer goes through a reference: the C interface needs
// both.

// Starts a replica as this site, whatever stood in record and table.
#[tactic(auto, using(crate::proofs::Calls::no_table), unfolding(crate::specs::Calls::start_bytes))]
pub fn replica_start(state: &mut [u8], table: &mut [u8], site: u32) -> u32
    ensures { record { answer = result; state = state.new; table = table.new } ≡ start_bytes state.old table.old site }
{
    let mut r = read(state);
    if state.len() != RECORD {
        // no record to start: no table is lent either, and what is left to answer is 14 or 1
        return number(start(&mut r, &mut table[..0], site).map(|()| Success::Done));
    }
    let answer = start(&mut r, table, site);
    write(r, state);
    number(answer.map(|()| Success::Done))
}

// Inserts a line with this text before a row. The patch is written at the front of `patch`, and its length
// into `written`.
#[tactic(auto, unfolding(crate::specs::Calls::insert_bytes))]
pub fn replica_insert(
    state: &mut [u8],
    table: &mut [u8],
    row: usize,
    text: &[u8],
    draw: u32,
    patch: &mut [u8],
    written: &mut usize,
) -> u32
    ensures { record { answer = result; state = state.new; table = table.new; patch = patch.new; written = written.new } ≡ insert_bytes state.old table.old row text.now draw patch.old }
{
    let mut r = read(state);
    let answer = insert(&mut r, table, row, draw, text, patch);
    write(r, state);
    own_answer(answer, written)
}

// Deletes the line of a row. The patch is written at the front of `patch`, and its length into `written`.
#[tactic(auto, unfolding(crate::specs::Calls::delete_bytes))]
pub fn replica_delete(
    state: &mut [u8],
    table: &mut [u8],
    row: usize,
    patch: &mut [u8],
    written: &mut usize,
) -> u32
    ensures { record { answer = result; state = state.new; table = table.new; patch = patch.new; written = written.new } ≡ delete_bytes state.old table.old row patch.old }
{
    let mut r = read(state);
    let answer = delete(&mut r, table, row, patch);
    write(r, state);
    own_answer(answer, written)
}

// The number of an own edit's answer; the length of the patch written, 0 where it is refused, goes beside it.
fn own_answer(answer: Result<usize, Refusal>, written: &mut usize) -> u32
    ensures number { result ≡ done_number answer }
    ensures length { written.new ≡ length_given answer }
{
    *written = answer.unwrap_or(0);
    number(answer.map(|_| Success::Done))
}

// Receives a patch.
#[tactic(auto, unfolding(crate::specs::Calls::receive_bytes))]
pub fn replica_receive(state: &mut [u8], table: &mut [u8], patch: &[u8]) -> u32
    ensures { record { answer = result; state = state.new; table = table.new } ≡ receive_bytes state.old table.old patch.now }
{
    let mut r = read(state);
    let answer = receive(&mut r, table, patch);
    write(r, state);
    number(answer)
}

// Where in the table the text of a row stands: its first byte and its length, or two zeros.
#[tactic(auto, using(crate::proofs::Calls::text_there), unfolding(crate::specs::Calls::row_text))]
pub fn replica_row_text(
    state: &[u8],
    table: &[u8],
    row: usize,
    start: &mut usize,
    len: &mut usize,
) -> u32
    ensures { record { answer = result; start = start.new; len = len.new } ≡ row_text state.now table.now row }
{
    *start = 0;
    *len = 0;
    match read_row(&read(state), table, row) {
        Ok(text) => {
            *start = text_start(row);
            *len = text.len();
            u32::from(Success::Done)
        }
        Err(why) => u32::from(why),
    }
}

// Compares two sets of sixteen counts, 64 bytes each, and writes for each site which side has more, and the
// first and last number that the other side lacks.
pub fn replica_compare(first: &[u8], second: &[u8], res: &mut [u8]) -> u32
    ensures { record { answer = result; result = res.new } ≡ compare_bytes first.now second.now res.old }
{
    if first.len() != COUNTS || second.len() != COUNTS || res.len() != LACKS {
        return u32::from(Refusal::Unsound);
    }
    match compare_counts(read_counts(first), read_counts(second)) {
        Ok(sites) => {
            write_lacks(sites, res);
            u32::from(Success::Done)
        }
        Err(why) => u32::from(why),
    }
}

// How many bytes the first patch of a run takes: so a host can keep patches one behind the other.
#[tactic(auto, using(crate::proofs::Calls::first_used, crate::proofs::Calls::none_used), unfolding(crate::specs::Calls::first_patch))]
pub fn replica_patch_first(bytes: &[u8], used: &mut usize) -> u32
    ensures { record { answer = result; used = used.new } ≡ first_patch bytes.now }
{
    match read_first(bytes) {
        Some(first) => {
            *used = first.used;
            u32::from(Success::Done)
        }
        None => {
            *used = 0;
            u32::from(Refusal::Malformed)
        }
    }
}
