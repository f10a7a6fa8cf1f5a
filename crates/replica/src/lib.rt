// The operations of one replica that are not its own edits (01, 'What is built'): start, receive a patch,
// read a row's text, compare two sets of counts. `edits` has insert before a row and delete a row. The
// caller keeps record and table, and hands the one and lends the other to each call.
//
// Rests on `sound` for whether record and table are sound, on `script` for the table, on `reader` for a
// patch's bytes, and on `effect` for what an edit does. Every operation takes any record, bytes and
// numbers whatever; for each, one definition in specs/ gives its checks in the document's order, the
// answer, and all that it leaves. A refusal leaves all as it was.
//
// The record comes in by value, and comes back where a call that changes it is done; `lent` has the operations over a
// lent one.
#![tactic(auto)]

pub mod compare;
pub mod read;
pub mod receive;
pub mod start;
