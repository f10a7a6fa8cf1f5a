// Numbers with the high byte first, and rows of one width in a lent slice of bytes (01, 'The record
// and the table'). Nothing here knows what a row holds: the script's table, a record's counts and
// later an index or a ring are rows of some width.
//
// Rests on nothing. `numbers` reads and writes a number at a place that is there; `moves` puts bytes
// in and takes bytes out, for every slice and every place. What they mean is specs/Numbers.antt and
// specs/Rows.antt; that rows then stand as the list of their elements does is proofs/Moved.antt.
#![tactic(auto)]

pub mod moves;
pub mod numbers;
