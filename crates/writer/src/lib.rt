// Patches written at the front of a lent buffer (01, 'Patch layout').
//
// Rests on `format`, whose specs are what a patch is, and on `rows` for numbers. Takes any patch, text and
// buffer; what no bytes would read as is refused. That reading and writing undo each other, which is the
// only part that rests on `reader`, is proofs/RoundTrip.antt.
#![tactic(auto)]

ghost use Rattle.std.specs.Prelude.{◌≡◌, ◌+◌, ◌≤◌, length};
ghost use Rattle.position.specs.Positions.{ids_of};
ghost use Rattle.format.specs.Answers.{done_number, length_given};
ghost use Rattle.format.specs.Kinds.{kind_byte};
ghost use Rattle.format.specs.Patches.{head_size, before_most, place_most, line_most, most_size, head_bytes, before_bytes, place_bytes, line_bytes, patch_bytes};
ghost use Rattle.format.specs.WellFormed.{LineFits, WellFormed};
ghost use Rattle.writer.specs.Put.{Put};
ghost use Rattle.writer.specs.Write.{write_patch};

use format::answers::Refusal;
use format::rules::well_formed;
use format::{ENTRY, Edit, HEAD, IDENTIFIER, Kind, MOST, Patch, TEXT};
use position::Position;
use record::SITES;
use rows::numbers::Number;
use script::row::put_identifiers;

// Writes a patch with its text at the front of a buffer of at least 161 bytes, and gives how many bytes it has. The
// bytes behind it stay, and so does the whole buffer where it is refused.
#[tactic(auto, using(crate::proofs::Writes::steps))]
pub fn write(p: Patch, text: &[u8; TEXT], buffer: &mut [u8]) -> Result<usize, Refusal>
    ensures { record { answer = done_number result; length = length_given result; buffer = buffer.new } ≡ write_patch p text.now buffer.old }
{
    if buffer.len() < MOST {
        return Err(Refusal::ShortBuffer);
    }
    if !well_formed(p, text) {
        return Err(Refusal::Malformed);
    }
    Ok(put_patch(p, text, buffer))
}

// The four sections, one behind the other; gives how many bytes they are. Each is written at the front of the part of
// the buffer that is left, and gives how many bytes it has.
#[tactic(auto, using(crate::proofs::Behind::rooms))]
fn put_patch(p: Patch, text: &[u8; TEXT], buffer: &mut [u8]) -> usize
    requires { WellFormed p text.now × (most_size ≤ length buffer.old) }
    ensures { Put (patch_bytes p text.now) buffer.old result buffer.new }
{
    let before_at = put_head(p.edit.kind(), p.author, p.number, buffer);
    let place_at = before_at + put_before(p.before, &mut buffer[before_at..]);
    let line_at = place_at + put_place(p.place, &mut buffer[place_at..]);
    line_at + put_line(p.edit, text, &mut buffer[line_at..])
}

// The head: kind, author, number.
#[tactic(auto, using(crate::proofs::Behind::head_steps))]
fn put_head(kind: Kind, author: u8, number: u32, part: &mut [u8]) -> usize
    requires { head_size ≤ length part.old }
    ensures { Put (head_bytes (kind_byte kind) author number) part.old result part.new }
{
    u8::from(kind).put(part, 0);
    author.put(part, 1);
    number.put(part, 2);
    HEAD
}

// Before: the number of its entries, then the counts that are not zero, each behind its site.
#[tactic(auto, using(crate::proofs::Before::steps))]
fn put_before(counts: [u32; SITES], part: &mut [u8]) -> usize
    requires { before_most ≤ length part.old }
    ensures { Put (before_bytes counts) part.old result part.new }
{
    let mut entries = 0;
    for (i, count) in counts.iter().enumerate() {
        if *count > 0 {
            let at = 1 + ENTRY * entries;
            (i as u8 + 1).put(part, at);
            count.put(part, at + 1);
            entries += 1;
        }
    }
    (entries as u8).put(part, 0);
    1 + ENTRY * entries
}

// The place: the number of its identifiers, then each.
#[tactic(auto, using(crate::proofs::Placed::steps))]
fn put_place(place: Position, part: &mut [u8]) -> usize
    requires { place_most ≤ length part.old }
    ensures { Put (place_bytes (ids_of place)) part.old result part.new }
{
    let ids = place.identifiers();
    (ids.len() as u8).put(part, 0);
    put_identifiers(part, ids);
    1 + IDENTIFIER * ids.len()
}

// The line: the text of an insert, or the number of the line that a delete strikes.
#[tactic(auto, using(crate::proofs::Lined::steps))]
fn put_line(edit: Edit, text: &[u8; TEXT], part: &mut [u8]) -> usize
    requires { LineFits edit text.now × (line_most ≤ length part.old) }
    ensures { Put (line_bytes edit text.now) part.old result part.new }
{
    match edit {
        Edit::Insert(length) => {
            (length as u8).put(part, 0);
            part[1..1 + length].copy_from_slice(&text[..length]);
            1 + length
        }
        Edit::Delete(number) => {
            4u8.put(part, 0);
            number.put(part, 1);
            1 + 4
        }
    }
}
