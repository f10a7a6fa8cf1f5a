// A replica's own edits (01, 'What is built'): insert before a row, delete a row. Each makes a patch, writes
// it into a lent buffer and does what it does.
//
// Rests on `sound` for whether record and table are sound, on `script` for the table, on `position` for
// a new place, on `writer` for the patch's bytes, and on `effect` for what an edit does. An edit takes
// any record, bytes and numbers whatever; for each, one definition in specs/ gives its checks in the
// document's order, the answer, and all that it leaves. A refusal leaves all as it was. That another
// replica which receives the patch is left with the same rests on `replica` (proofs/OwnDone.antt).
//
// The record comes in by value, and comes back where a call that changes it is done; `lent` has the operations over a
// lent one.
#![tactic(auto)]

use record::Replica;

pub mod delete;
pub mod insert;
mod own;

// The record after an own edit, and the length of the patch written.
#[derive(Clone, Copy, Debug)]
pub struct Edited {
    pub replica: Replica,
    pub length: usize,
}
