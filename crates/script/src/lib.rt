// The script of one replica: the table of its lines in a lent slice of 39,936 bytes (01, 'The record and
// the table').
//
// Rests on `position` for the order of lines, on `rows` for numbers and for moving rows, and on `record` for
// the counts that a sound line is held to. What a table means is the list of its lines (specs/Lines.antt);
// when record and table are sound is specs/Sound.antt, and that a sound table is the encoding of its lines is
// proofs/Tables.antt. Deciding soundness is the crate `sound`.
#![tactic(auto)]

ghost use Rattle.script.specs.Sound.{Sound};

use record::Replica;

pub mod row;
pub mod table;

// 01's 'Numbers that bound it': the table is 512 rows of 78 bytes.
pub const ROWS: usize = 512;

pub const ROW: usize = 78;

pub const TABLE: usize = ROWS * ROW;

// Record and table, which are sound together: whoever makes this value has tested them, and what takes it asks
// nothing more of the two.
#[derive(Clone, Copy)]
pub struct Script<'a> {
    pub replica: Replica,
    pub table: &'a [u8],
    pub ghost sound: { ∥ Sound replica table.now ∥₁ },
}
