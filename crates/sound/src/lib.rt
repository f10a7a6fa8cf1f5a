// Whether record and table are sound (01, 'The record and the table'). Every edit, every patch received and
// every row read pays for this, so it is one pass over the table, and what it looks at is straight-line work
// that the compiler turns into vectors.
//
// Rests on `script`, whose specs/Sound.antt is what `sound` decides, on `record` for sites and counts, on `position`
// for what an identifier may be, and on `rows` for numbers and bytes that are zero. Two facts make it fast, and
// proofs/ has them as laws. Unused identifiers are zero and the last one in use is not the pad, so positions
// stand in the order of their 24 bytes: three words are compared, and carried on to the next row. And the faults
// of a row's identifiers, and of its text, are or-ed together and tested once.
#![tactic(auto)]

ghost use Rattle.std.specs.Prelude.{◌≡◌, true, ◌↔◌};
ghost use Rattle.record.specs.Records.{SoundRecord};
ghost use Rattle.script.specs.Sound.{Sound};

use crate::scan::table_fits;
use record::site::Site;
use record::{Replica, counts_fit};
use script::{ROWS, TABLE};

mod faults;
mod scan;

// Whether this record and this table are sound, for any values of both.
pub fn sound(r: Replica, table: &[u8]) -> bool
    ensures { (result ≡ true) ↔ Sound r table.now }
{
    table.len() == TABLE && record_fits(r) && table_fits(r.rows as usize, &r.counts, table)
}

// The record by itself.
fn record_fits(r: Replica) -> bool
    ensures { (result ≡ true) ↔ SoundRecord r }
{
    Site::try_from(r.site as u32).is_ok() && r.rows as usize <= ROWS && counts_fit(r.counts)
}
