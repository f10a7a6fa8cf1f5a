// The reading spot (01, 'Patch layout'): "Each field read moves the reading spot on and gives it back."
// A cursor by value; each method reads one field, or one section made of fields, tests its range, and
// gives what was read with the spot behind it. Where the bytes are not there or out of range, there is none.
ghost use Rattle.std.specs.Prelude.{◌≡◌, ◌≤◌, length};
ghost use Rattle.position.specs.Positions.{Proper};
ghost use Rattle.rows.specs.Numbers.{num_at, bytes_of};
ghost use Rattle.script.specs.Lines.{encode_identifier, decode_identifier};
ghost use Rattle.format.specs.Patches.{encode_entry, before_bytes};
ghost use Rattle.format.specs.WellFormed.{NumberFits, BeforeFits};
ghost use Rattle.format.specs.Steps.{PlaceFits};
ghost use Rattle.reader.specs.Steps.{Reads, Within, encode_kind, AnyKind, encode_head, HeadFits, EntryAbove};
ghost use Rattle.reader.specs.Steps.{encode_place, encode_line, LineOfKind};

use format::rules::{identifier_fits, number_fits};
use format::{Edit, Entry, IDENTIFIER, Kind, TEXT};
use position::{Identifier, Position};
use record::SITES;
use rows::moves::copy_front;
use rows::numbers::Number;

// The spot: what has still to be read.
#[derive(Clone, Copy)]
pub struct Cursor<'a> {
    pub rest: &'a [u8],
}

// What was read, and the spot behind it.
#[derive(Clone, Copy)]
pub struct Field<'a, T> {
    pub value: T,
    pub next: Cursor<'a>,
}

// The first section.
#[derive(Clone, Copy, Debug)]
pub struct Head {
    pub kind: Kind,
    pub author: u8,
    pub number: u32,
}

// The last section: the edit, and the text beside it.
#[derive(Clone, Copy, Debug)]
pub struct Line {
    pub edit: Edit,
    pub text: [u8; TEXT],
}

impl<'a> Cursor<'a> {
    // The spot at which reading starts.
    pub fn start(s: &'a [u8]) -> Cursor<'a>
        ensures { result.rest.now ≡ s.now }
    {
        Cursor { rest: s }
    }

    // A byte from `least` to `most`: the count byte of a section.
    fn count(self, least: u8, most: u8) -> Option<Field<'a, u8>>
        ensures { Reads (bytes_of 1) (Within least most) self.entry.rest.now result }
    {
        let (value, rest) = self.rest.split_first()?;
        (least..=most).contains(value).then_some(Field {
            value: *value,
            next: Cursor { rest },
        })
    }

    // A site, from `least` on.
    fn site(self, least: u8) -> Option<Field<'a, u8>>
        ensures { Reads (bytes_of 1) (Within least 16) self.entry.rest.now result }
    {
        self.count(least, SITES as u8)
    }

    // A patch's number, or a count of Before: 1 to 1,000,000.
    fn number(self) -> Option<Field<'a, u32>>
        ensures { Reads (bytes_of 4) NumberFits self.entry.rest.now result }
    {
        let (bytes, rest) = self.rest.split_at_checked(4)?;
        let value = number_in(bytes);
        number_fits(value).then_some(Field {
            value,
            next: Cursor { rest },
        })
    }

    // An identifier: the pad, or both parts in range.
    fn identifier(self) -> Option<Field<'a, Identifier>>
        ensures { Reads encode_identifier Proper self.entry.rest.now result }
    {
        let (bytes, rest) = self.rest.split_at_checked(IDENTIFIER)?;
        let value = identifier_in(bytes);
        identifier_fits(value).then_some(Field {
            value,
            next: Cursor { rest },
        })
    }

    // The kind of a patch.
    fn kind(self) -> Option<Field<'a, Kind>>
        ensures { Reads encode_kind AnyKind self.entry.rest.now result }
    {
        let (byte, rest) = self.rest.split_first()?;
        let value = Kind::try_from(*byte).ok()?;
        Some(Field {
            value,
            next: Cursor { rest },
        })
    }

    // The head: kind, author, number.
    #[tactic(auto, using(crate::proofs::Sections::head_rules))]
    pub fn head(self) -> Option<Field<'a, Head>>
        ensures { Reads encode_head HeadFits self.entry.rest.now result }
    {
        let kind = self.kind()?;
        let author = kind.next.site(1)?;
        let number = author.next.number()?;
        Some(Field {
            value: Head {
                kind: kind.value,
                author: author.value,
                number: number.value,
            },
            next: number.next,
        })
    }

    // An entry of Before whose site is above the last one.
    #[tactic(auto, using(crate::proofs::Sections::entry_rules))]
    fn entry(self, last: u8) -> Option<Field<'a, Entry>>
        requires { last ≤ 16 }
        ensures { Reads encode_entry (EntryAbove last) self.entry.rest.now result }
    {
        let site = self.site(last + 1)?;
        let count = site.next.number()?;
        Some(Field {
            value: Entry {
                site: site.value,
                count: count.value,
            },
            next: count.next,
        })
    }

    // Before, as sixteen counts: 0 where there is no entry.
    pub fn before(self) -> Option<Field<'a, [u32; SITES]>>
        ensures { Reads before_bytes BeforeFits self.entry.rest.now result }
    {
        let entries = self.count(0, SITES as u8)?;
        let mut next = entries.next;
        let mut value = [0; SITES];
        let mut last = 0;
        for _ in 0..entries.value {
            let entry = next.entry(last)?;
            last = entry.value.site;
            value[usize::from(last) - 1] = entry.value.count;
            next = entry.next;
        }
        Some(Field { value, next })
    }

    // The place: 1 to 8 identifiers, and pads behind them.
    pub fn place(self) -> Option<Field<'a, Position>>
        ensures { Reads encode_place PlaceFits self.entry.rest.now result }
    {
        let count = self.count(1, Position::LIMIT as u8)?;
        let mut next = count.next;
        let used = usize::from(count.value);
        let mut ids = [Identifier::default(); Position::LIMIT];
        for i in 0..used {
            let id = next.identifier()?;
            ids[i] = id.value;
            next = id.next;
        }
        Some(Field {
            value: Position { used, ids },
            next,
        })
    }

    // The line of a patch of this kind.
    pub fn line(self, kind: Kind) -> Option<Field<'a, Line>>
        ensures { Reads encode_line (LineOfKind kind) self.entry.rest.now result }
    {
        match kind {
            Kind::Insert => self.text(),
            Kind::Delete => self.struck(),
        }
    }

    // The line of an insert: its text, 0 to 48 bytes.
    fn text(self) -> Option<Field<'a, Line>>
        ensures { Reads encode_line (LineOfKind Kind.Insert) self.entry.rest.now result }
    {
        let count = self.count(0, TEXT as u8)?;
        let length = usize::from(count.value);
        let (bytes, rest) = count.next.rest.split_at_checked(length)?;
        let mut text = [0; TEXT];
        copy_front(&mut text, bytes);
        Some(Field {
            value: Line {
                edit: Edit::Insert(length),
                text,
            },
            next: Cursor { rest },
        })
    }

    // The line of a delete: always 4 bytes, the number of the line struck.
    #[tactic(auto, using(crate::proofs::Sections::struck_rules))]
    fn struck(self) -> Option<Field<'a, Line>>
        ensures { Reads encode_line (LineOfKind Kind.Delete) self.entry.rest.now result }
    {
        let count = self.count(4, 4)?;
        let number = count.next.number()?;
        Some(Field {
            value: Line {
                edit: Edit::Delete(number.value),
                text: [0; TEXT],
            },
            next: number.next,
        })
    }
}

// The number that four bytes are. It takes them as a slice of its own: that each is below 256 is known of what
// is passed, and not of a part that a call gave.
fn number_in(bytes: &[u8]) -> u32
    requires { length bytes.now ≡ 4 }
    ensures value { result ≡ num_at 4 bytes.now 0 }
    ensures bytes { bytes_of 4 result ≡ bytes.now }
{
    u32::read(bytes, 0)
}

// The identifier that three bytes are.
fn identifier_in(bytes: &[u8]) -> Identifier
    requires { length bytes.now ≡ 3 }
    ensures value { result ≡ decode_identifier bytes.now }
    ensures bytes { encode_identifier result ≡ bytes.now }
{
    Identifier {
        integer: u16::read(bytes, 0),
        site: bytes[2],
    }
}
