// Deleting a row (01, 'Answer numbers').
ghost use Rattle.std.specs.Prelude.{◌≡◌};
ghost use Rattle.edits.specs.Own.{own_outcome};
ghost use Rattle.edits.specs.Delete.{delete_call};

use crate::Edited;
use crate::own::{own_edit, own_patch};
use format::answers::Refusal;
use format::{Edit, MOST, TEXT};
use record::site::Site;
use record::{LAST_NUMBER, Replica, count_of};
use script::table::Found;
use script::{ROW, row};
use sound::sound;

// Deletes the line of a row. The patch, which names the line by position and number, is written at the
// front of the buffer.
#[tactic(auto, using(replica::proofs::Tests::tests, rows::proofs::Bytes::rest_lent), unfolding(script::specs::Lines::decode_row, crate::specs::Delete::delete_call, crate::specs::Delete::delete_checks, format::specs::Answers::first_of))]
pub fn delete(
    r: Replica,
    table: &mut [u8],
    row: usize,
    buffer: &mut [u8],
) -> Result<Edited, Refusal>
    ensures { own_outcome r result table.new buffer.new ≡ delete_call r table.old row buffer.old }
{
    if !sound(r, table) {
        return Err(Refusal::Unsound);
    }
    if buffer.len() < MOST {
        return Err(Refusal::ShortBuffer);
    }
    if r.rows as usize <= row {
        return Err(Refusal::NoRow);
    }
    if count_of(r.counts, Site { number: r.site }) == LAST_NUMBER {
        return Err(Refusal::NumbersSpent);
    }
    let line = &table[row * ROW..];
    let p = own_patch(r, row::position(line), Edit::Delete(row::number(line)));
    Ok(own_edit(r, table, p, &[0; TEXT], Found::Row(row), buffer))
}
