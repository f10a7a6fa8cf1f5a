// Inserting a line before a row (01, 'Answer numbers', 'A new place').
ghost use Rattle.std.specs.Prelude.{◌≡◌, ◌≤◌, length};
ghost use Rattle.position.specs.Positions.{position_of};
ghost use Rattle.rows.specs.Rows.{filled};
ghost use Rattle.script.specs.Lines.{decode_table};
ghost use Rattle.edits.specs.Own.{own_outcome};
ghost use Rattle.edits.specs.Insert.{left_of, right_of, place_before, insert_call};

use crate::Edited;
use crate::own::{own_edit, own_patch};
use effect::is_row;
use format::answers::Refusal;
use format::{Edit, MOST, TEXT};
use position::Position;
use position::place::place;
use record::site::Site;
use record::{LAST_NUMBER, Replica, count_of};
use rows::moves::copy_front;
use script::{ROW, ROWS, Script, row};
use sound::sound;

// Inserts a line with this text before a row, or behind the last. The draw chooses its place; the patch
// is written at the front of the buffer. The checks that `delete` has too stand in each, in 01's order for it.
#[tactic(auto, using(replica::proofs::Tests::tests), unfolding(crate::specs::Insert::insert_call, crate::specs::Insert::insert_checks, format::specs::Answers::first_of))]
pub fn insert(
    r: Replica,
    table: &mut [u8],
    row: usize,
    draw: u32,
    text: &[u8],
    buffer: &mut [u8],
) -> Result<Edited, Refusal>
    ensures { own_outcome r result table.new buffer.new ≡ insert_call r table.old row draw text.now buffer.old }
{
    if !sound(r, table) {
        return Err(Refusal::Unsound);
    }
    if buffer.len() < MOST {
        return Err(Refusal::ShortBuffer);
    }
    if (r.rows as usize) < row {
        return Err(Refusal::NoRow);
    }
    if TEXT < text.len() {
        return Err(Refusal::LongText);
    }
    if r.rows as usize == ROWS {
        return Err(Refusal::Full);
    }
    if count_of(r.counts, Site { number: r.site }) == LAST_NUMBER {
        return Err(Refusal::NumbersSpent);
    }
    let script = Script { replica: r, table };
    let position = place_before(script, row, draw).ok_or(Refusal::NoPlace)?;
    let found = script.find(&position);
    if is_row(found) {
        return Err(Refusal::PlaceTaken);
    }
    let p = own_patch(r, position, Edit::Insert(text.len()));
    Ok(own_edit(r, table, p, &beside(text), found, buffer))
}

// The place made before a row.
#[tactic(auto, using(position::proofs::Ids::position_ids), unfolding(crate::specs::Insert::place_before))]
fn place_before(script: Script, row: usize, draw: u32) -> Option<Position>
    requires { row ≤ script.replica.rows }
    ensures { result ≡ place_before script.entry.replica script.entry.table.now row draw }
{
    place(
        &left(script, row),
        &right(script, row),
        script.replica.site,
        draw,
    )
}

// The neighbour before a place: the line of the row before, or the begin.
#[tactic(auto, using(script::proofs::Scripts::held_there, crate::proofs::Neighbours::left_read))]
fn left(script: Script, row: usize) -> Position
    requires { row ≤ script.replica.rows }
    ensures { result ≡ position_of (left_of (decode_table script.entry.replica.rows script.entry.table.now) row) }
{
    if row == 0 {
        Position::begin()
    } else {
        row::position(&script.table[(row - 1) * ROW..])
    }
}

// The neighbour behind a place: the line of the row, or the end.
#[tactic(auto, using(script::proofs::Scripts::held_there, crate::proofs::Neighbours::right_read, crate::proofs::Neighbours::right_none))]
fn right(script: Script, row: usize) -> Position
    ensures { result ≡ position_of (right_of (decode_table script.entry.replica.rows script.entry.table.now) row) }
{
    if row < script.replica.rows as usize {
        row::position(&script.table[row * ROW..])
    } else {
        Position::end()
    }
}

// The text as it stands beside a patch: 48 bytes, zero where unused.
#[tactic(auto, using(crate::proofs::Beside::copied_filled))]
fn beside(text: &[u8]) -> [u8; TEXT]
    requires { length text.now ≤ 48 }
    ensures { result ≡ filled 48 text.now }
{
    let mut whole = [0u8; TEXT];
    copy_front(&mut whole, text);
    whole
}
