// One row of the table (01, 'The record and the table'): identifiers used (1), eight identifiers of
// integer (2) and site (1), number (4), text length (1), text (48). What is unused is zero.
ghost use Rattle.std.specs.Prelude.{◌≡◌, ◌≤◌, length};
ghost use Rattle.position.specs.Positions.{ids_of, position_of};
ghost use Rattle.rows.specs.Rows.{flat, written};
ghost use Rattle.script.specs.Lines.{encode_identifier, encode_row, identifiers_of, number_of, used_of};

use crate::ROW;
use position::{Identifier, Position};
use rows::moves::copy_front;
use rows::numbers::Number;

// The 78 bytes of a line.
pub fn encode(place: Position, number: u32, text: &[u8]) -> [u8; ROW]
    requires { length text.now ≤ 48 }
    ensures { result ≡ encode_row (record { position = ids_of place; number = number; text = text.now }) }
{
    let mut row = [0u8; ROW];
    (place.length() as u8).put(&mut row, 0);
    put_identifiers(&mut row, place.identifiers());
    number.put(&mut row, 25);
    (text.len() as u8).put(&mut row, 29);
    copy_front(&mut row[30..], text);
    row
}

// Writes identifiers behind a count byte, from the second byte on: so they stand in a row, and in the place section of
// a patch.
#[tactic(auto, using(rows::proofs::Bytes::nothing_written), unfolding(rows::specs::Rows::flat))]
pub fn put_identifiers(part: &mut [u8], ids: &[Identifier])
    requires { (25 ≤ length part.old) × (length ids.now ≤ 8) }
    ensures { part.new ≡ written 1 (flat encode_identifier ids.now) part.old }
{
    for (i, id) in ids.iter().enumerate() {
        id.integer.put(part, 1 + 3 * i);
        id.site.put(part, 3 + 3 * i);
    }
}

// The position of a row; what is given begins with the row's first byte.
pub fn position(row: &[u8]) -> Position
    requires { (25 ≤ length row.now) × (used_of row.now ≤ 8) }
    ensures { result ≡ position_of (identifiers_of row.now) }
{
    let used = row[0] as usize;
    let mut ids = [Identifier::default(); Position::LIMIT];
    for i in 0..used {
        ids[i] = Identifier {
            integer: u16::read(row, 1 + 3 * i),
            site: row[3 + 3 * i],
        };
    }
    Position { used, ids }
}

// The number of a row.
pub fn number(row: &[u8]) -> u32
    requires { 29 ≤ length row.now }
    ensures { result ≡ number_of row.now }
{
    u32::read(row, 25)
}
