// Patches read from bytes (01, 'Patch layout'): the first off a longer run of bytes, or exactly one.
//
// Rests on `format`, whose specs are what a patch is, and on `rows` for numbers. Takes any bytes; what is
// not well-formed is refused. A cursor goes over the fields, each tested as it is read; what is left is to
// hold the fields against each other.
#![tactic(auto)]

mod cursor;

ghost use Rattle.std.specs.Prelude.{◌≡◌};
ghost use Rattle.reader.specs.Read.{refused, read_first, read_one, taken};

use cursor::Cursor;
use format::rules::agrees;
use format::{Edit, Patch, TEXT};
use position::Position;
use record::SITES;

// A patch, the 48 bytes of text beside it, and how many bytes it used. The default is what 01 has for a refused
// reading: all zeros, with an insert as the edit.
#[derive(Clone, Copy, Debug)]
pub struct Reading {
    pub patch: Patch,
    pub text: [u8; TEXT],
    pub used: usize,
}

// Takes the first patch off a run of bytes.
pub fn read_first(s: &[u8]) -> Option<Reading>
    ensures { result ≡ taken (read_first s.now) }
{
    let head = Cursor::start(s).head()?;
    let before = head.next.before()?;
    let place = before.next.place()?;
    let line = place.next.line(head.value.kind)?;
    let patch = Patch {
        author: head.value.author,
        number: head.value.number,
        before: before.value,
        place: place.value,
        edit: line.value.edit,
    };
    // no `then_some`, which takes the reading by value and copies it
    if !agrees(patch) {
        return None;
    }
    Some(Reading {
        patch,
        text: line.value.text,
        used: s.len() - line.next.rest.len(),
    })
}

// Reads exactly one patch: a byte left over is malformed.
#[tactic(auto, unfolding(crate::specs::Read::read_one))]
pub fn read_one(s: &[u8]) -> Option<Reading>
    ensures { result ≡ taken (read_one s.now) }
{
    read_first(s).filter(|first| first.used == s.len())
}

// No derive gives it: `Edit` has no variant without a length or a number.
impl Default for Reading {
    ghost is_default = { λ reading. reading ≡ refused };

    fn default() -> Reading {
        Reading {
            patch: Patch {
                author: 0,
                number: 0,
                before: [0; SITES],
                place: Position::default(),
                edit: Edit::Insert(0),
            },
            text: [0; TEXT],
            used: 0,
        }
    }
}
