// What a patch is (01, 'Patch layout'): its value, the bytes that it has, and the rules by which it is
// well-formed.
//
// Rests on `position` for places, on `rows` for numbers, on `record` for the counts, and on `script` for the
// identifier's bytes. The bytes are specs/Patches.antt and the rules specs/WellFormed.antt; what a reader of the
// format has to believe is those two. Reading and writing are the crates `reader` and `writer`. The answer
// numbers stand here too (`answers`), below everything that answers with one.
#![tactic(auto)]

use position::Position;

pub mod answers;
pub mod rules;

// The most bytes that the text of a line has; as many stand beside a patch, zero where unused.
pub const TEXT: usize = 48;

// How many bytes the parts of a patch take: its head, one entry of Before, one identifier of its place.
pub const HEAD: usize = 6;

pub const ENTRY: usize = 5;

pub const IDENTIFIER: usize = 3;

// The most bytes that a patch has: the head, then three sections, each after its count byte.
pub const MOST: usize = HEAD
    + (1 + record::SITES * ENTRY)
    + (1 + Position::LIMIT * IDENTIFIER)
    + (1 + TEXT);

// What a patch does, by the first byte of its head: "kind (1 insert, 2 delete)".
#[derive(Clone, Copy, Debug, PartialEq, Eq)]
pub enum Kind {
    Insert = 1,
    Delete = 2,
}

// A byte that is no kind.
#[derive(Clone, Copy, Debug, PartialEq, Eq)]
pub struct NoKind;

impl TryFrom<u8> for Kind {
    ghost use Rattle.format.specs.Kinds.{KindOf};

    type Error = NoKind;

    ghost try_from_gives = { KindOf };

    fn try_from(byte: u8) -> Result<Kind, NoKind> {
        match byte {
            1 => Ok(Kind::Insert),
            2 => Ok(Kind::Delete),
            _ => Err(NoKind),
        }
    }
}

impl From<Kind> for u8 {
    ghost use Rattle.std.specs.Prelude.{◌≡◌};
    ghost use Rattle.format.specs.Kinds.{kind_byte};

    ghost from_gives = { λ kind byte. byte ≡ kind_byte kind };

    fn from(kind: Kind) -> u8 {
        kind as u8
    }
}

// "one edit: an insert with its text length, or a delete with its line number"
#[derive(Clone, Copy, Debug, PartialEq, Eq)]
pub enum Edit {
    Insert(usize),
    Delete(u32),
}

impl Edit {
    ghost use Rattle.std.specs.Prelude.{◌≡◌};
    ghost use Rattle.format.specs.Kinds.{kind_byte};
    ghost use Rattle.format.specs.Patches.{kind_of};

    pub fn kind(self) -> Kind
        ensures { kind_byte result ≡ kind_of self }
    {
        match self {
            Edit::Insert(_) => Kind::Insert,
            Edit::Delete(_) => Kind::Delete,
        }
    }
}

// An entry of Before: a site and its count.
#[derive(Clone, Copy, Debug, PartialEq, Eq)]
pub struct Entry {
    pub site: u8,
    pub count: u32,
}

// "A patch once read is author, number, Before, place and one edit". Before is sixteen counts, that of
// site 1 first, and 0 where there is no entry. The text of an insert is no field: 01 has it stand beside the patch, as
// 48 bytes that go with it through every call.
#[derive(Clone, Copy, Debug)]
pub struct Patch {
    pub author: u8,
    pub number: u32,
    pub before: [u32; record::SITES],
    pub place: Position,
    pub edit: Edit,
}
