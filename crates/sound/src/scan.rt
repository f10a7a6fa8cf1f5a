// One pass over the table: each row by itself, its words against those of the row before, then the
// rows that are not in use.
ghost use Rattle.std.specs.Prelude.{◌≡◌, true, ◌↔◌, ◌≤◌, length};
ghost use Rattle.rows.specs.Rows.{Upto};
ghost use Rattle.script.specs.Lines.{table_size};
ghost use Rattle.sound.specs.Steps.{Fits, LastFits, RowFits, TableFits};

use crate::faults::{slot_faults, text_faults};
use record::SITES;
use record::site::Site;
use rows::moves::all_zero;
use rows::numbers::Number;
use script::ROW;

// The table of a record whose ranges hold.
pub(crate) fn table_fits(rows: usize, counts: &[u32; SITES], table: &[u8]) -> bool
    requires { (length table.now ≡ table_size) × (rows ≤ 512) }
    ensures { (result ≡ true) ↔ TableFits rows counts.now table.now }
{
    let (used, unused) = table.split_at(rows * ROW);
    let (rows, _) = used.as_chunks::<ROW>();
    rows_fit(rows, counts) && last_fits(rows) && all_zero(unused)
}

// The rows in use. The words of a row are carried on to the next; before the first they are zero,
// which every position is above.
fn rows_fit(rows: &[[u8; ROW]], counts: &[u32; SITES]) -> bool
    ensures { (result ≡ true) ↔ Upto (length rows.now) (Fits counts.now rows.now) }
{
    let mut words = (0, 0, 0);
    for row in rows {
        let next = (u64::read(row, 1), u64::read(row, 9), u64::read(row, 17));
        if !row_fits(row, counts) || words >= next {
            return false;
        }
        words = next;
    }
    true
}

// One row by itself.
fn row_fits(row: &[u8; ROW], counts: &[u32; SITES]) -> bool
    ensures { (result ≡ true) ↔ RowFits counts.now row.now }
{
    let (used @ 1..=8, length @ ..=48) = (row[0] as usize, row[29] as usize) else {
        return false;
    };
    let counted = |author: Site| (1..=counts[author.index()]).contains(&u32::read(row, 25));
    slot_faults(row, used) == 0
        && text_faults(row, length) == 0
        && Site::try_from(row[3 * used] as u32).is_ok_and(counted)
}

// The first integer of the last row: those of the rows before it are not above it.
fn last_fits(rows: &[[u8; ROW]]) -> bool
    ensures { (result ≡ true) ↔ LastFits rows.now }
{
    rows.last().is_none_or(|row| u16::read(row, 1) <= 65534)
}
