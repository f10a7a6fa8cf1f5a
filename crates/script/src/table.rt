// The table of a sound replica: finding a position, putting a row in, taking one out, and a row's
// text (01, 'The record and the table').
ghost use Rattle.std.specs.Prelude.{◌≡◌, ◌+◌, ◌*◌, ◌≤◌, ◌<◌, length};
ghost use Rattle.position.specs.Positions.{ids_of};
ghost use Rattle.rows.specs.Rows.{put_in, take_out, within};
ghost use Rattle.script.specs.Lines.{table_size, row_size, decode_table, text_of, text_start, text_length_of, row_at};
ghost use Rattle.script.specs.Find.{find_in};

use crate::{ROW, Script, row};
use position::Position;
use position::order::compare;
use rows::moves::{put_in, take_out};
use std::cmp::Ordering;

// The row that has a position, or the row where it would stand. Not a Result: a gap is no error, and
// specs/Find.antt speaks of rows and gaps.
#[derive(Clone, Copy, Debug, PartialEq, Eq)]
pub enum Found {
    Row(usize),
    Gap(usize),
}

impl Script<'_> {
    // Where a position stands, by halving: rows below `low` are below it, rows from `high` on are above.
    #[tactic(auto, using(crate::proofs::Scripts::held_there))]
    pub fn find(self, place: &Position) -> Found
        ensures { result ≡ find_in (ids_of place.now) (decode_table self.entry.replica.rows self.entry.table.now) }
    {
        let mut low = 0;
        let mut high = self.replica.rows as usize;
        // `binary_search_by` is no plainer: it wants an answer for any row, also for one of more than 8 identifiers.
        while low < high {
            let middle = low + (high - low) / 2;
            let at = middle * ROW;
            match compare(&row::position(&self.table[at..]), place) {
                Ordering::Less => {
                    low = middle + 1;
                }
                Ordering::Equal => {
                    return Found::Row(middle);
                }
                Ordering::Greater => {
                    high = middle;
                }
            }
        }
        Found::Gap(low)
    }
}

// Puts a row in at k: those from k on move up by one. Only the rows in use and the one behind them
// are touched. It changes the table, and a `Script` only reads one: so what it asks of the table stands here.
#[tactic(auto, unfolding(rows::specs::Rows::within))]
pub fn put_row(table: &mut [u8], rows: usize, k: usize, row: &[u8; ROW])
    requires { (length table.old ≡ table_size) × ((rows < 512) × (k ≤ rows)) }
    ensures { table.new ≡ within ((rows + 1) * row_size) (put_in (k * row_size) row.now) table.old }
{
    let end = (rows + 1) * ROW;
    put_in(&mut table[..end], k * ROW, row);
}

// Takes row k out: those behind it move down by one, and the row freed is zero. It changes the table too.
#[tactic(auto, unfolding(rows::specs::Rows::within))]
pub fn take_row(table: &mut [u8], rows: usize, k: usize)
    requires { (length table.old ≡ table_size) × ((rows ≤ 512) × (k ≤ rows)) }
    ensures { table.new ≡ within (rows * row_size) (take_out (k * row_size) row_size) table.old }
{
    let end = rows * ROW;
    take_out(&mut table[..end], k * ROW, ROW);
}

// Where in the table the text of row k begins.
pub fn text_start(k: usize) -> usize
    requires { k < 512 }
    ensures { result ≡ text_start k }
{
    k * ROW + 30
}

// The text of row k, as a part of the table: of any table of that length, also one that is no `Script`.
#[tactic(auto, using(crate::proofs::Lent::text_part))]
pub fn text(table: &[u8], k: usize) -> &[u8]
    requires { (length table.now ≡ table_size) × ((k < 512) × (text_length_of (row_at table.now k) ≤ 48)) }
    ensures { result.now ≡ text_of (row_at table.now k) }
{
    let start = text_start(k);
    let end = start + table[k * ROW + 29] as usize;
    &table[start..end]
}
