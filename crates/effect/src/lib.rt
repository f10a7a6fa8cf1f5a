// What a patch does to a replica, for own edits and for patches received alike (01, 'Answer numbers',
// the paragraph on what is done): "A local edit leaves what its patch would do on arrival".
//
// Rests on `record` for the counts, on `script` for the table and on `format` for what a patch is. It refuses
// nothing: whoever calls has checked that the replica takes the patch, and has found its place. What is done is
// specs/Effect.antt, said of the counts and the lines; that it keeps a replica sound is proofs/Keeps.antt.
#![tactic(auto)]

ghost use Rattle.std.specs.Prelude.{◌≡◌, true, ◌<◌};
ghost use Rattle.record.specs.Records.{count_of};
ghost use Rattle.script.specs.Lines.{decode_table};
ghost use Rattle.script.specs.Sound.{Sound};
ghost use Rattle.format.specs.Answers.{success_number};
ghost use Rattle.effect.specs.Effect.{raised, row_of, is_row, numbered, without, struck_answer, edited, done_answer, done_by};
ghost use Rattle.effect.specs.Steps.{Ready, Leaves};

use format::answers::Success;
use format::{Edit, Patch, TEXT};
use record::site::Site;
use record::{Replica, SITES};
use script::table::{Found, put_row, take_row};
use script::{ROW, row};

// The record after a call, and what the call has done.
#[derive(Clone, Copy, Debug)]
pub struct Done {
    pub replica: Replica,
    pub success: Success,
}

// The number of rows after an edit, and what the edit has done.
#[derive(Clone, Copy)]
struct Changed {
    rows: u16,
    success: Success,
}

// Does what a patch does: its edit to the table, at the row where its place was found, and one more to
// its author's count. What it is given stays five parameters: 01 has the record come by value, and a struct round
// the lent table would have to hand it back.
pub fn apply(r: Replica, table: &mut [u8], p: Patch, text: &[u8; TEXT], found: Found) -> Done
    requires { Ready r table.old p text.now found }
    ensures { record { answer = success_number result.success; replica = result.replica; table = table.new } ≡ done_by r table.old p text.now }
{
    let changed = edit_table(r, table, p, text, found);
    let author = Site { number: p.author };
    Done {
        replica: Replica {
            site: r.site,
            rows: changed.rows,
            counts: raised(r.counts, author),
        },
        success: changed.success,
    }
}

// The counts with that of this site raised by 1.
#[tactic(auto, unfolding(crate::specs::Effect::raised))]
fn raised(counts: [u32; SITES], site: Site) -> [u32; SITES]
    requires { count_of counts site.number < 1000000 }
    ensures { result ≡ raised counts site.number }
{
    let mut next = counts;
    next[site.index()] += 1;
    next
}

// The edit of a patch.
fn edit_table(r: Replica, table: &mut [u8], p: Patch, text: &[u8; TEXT], found: Found) -> Changed
    requires { Ready r table.old p text.now found }
    ensures { let lines = decode_table r.rows table.old in Leaves (edited p p.edit text.now lines) (done_answer p p.edit lines) result table.new }
{
    match p.edit {
        Edit::Insert(length) => {
            let row = row::encode(p.place, p.number, &text[..length]);
            put_row(table, r.rows as usize, row_of(found), &row);
            Changed {
                rows: r.rows + 1,
                success: Success::Done,
            }
        }
        Edit::Delete(number) => strike(r, table, found, number),
    }
}

// The row found, or the row where the place would stand.
fn row_of(found: Found) -> usize
    ensures { result ≡ row_of found }
{
    match found {
        Found::Row(k) | Found::Gap(k) => k,
    }
}

// Whether a row has the position.
pub fn is_row(found: Found) -> bool
    ensures { result ≡ is_row found }
{
    matches!(found, Found::Row(_))
}

// Takes out the row found, if it has this number: by position and number. A line that is not there has
// gone before. It changes the table, so it takes record and table, and no `Script`, which only reads them.
fn strike(r: Replica, table: &mut [u8], found: Found, number: u32) -> Changed
    requires { Sound r table.old × (is_row found ≡ true → row_of found < r.rows) }
    ensures { let lines = decode_table r.rows table.old in let row = numbered number lines found in Leaves (without row lines) (struck_answer row) result table.new }
{
    match found {
        Found::Row(k) if row::number(&table[k * ROW..]) == number => {
            take_row(table, r.rows as usize, k);
            Changed {
                rows: r.rows - 1,
                success: Success::Done,
            }
        }
        _ => Changed {
            rows: r.rows,
            success: Success::Gone,
        },
    }
}
