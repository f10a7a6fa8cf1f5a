// Whether a patch is well-formed (01, 'Patch layout'). The rules fall into two parts: each field by
// itself (`fields_fit`), which a reader of bytes has tested as it went, and the fields against each
// other (`agrees`).
ghost use Rattle.std.specs.Prelude.{◌≡◌, true, ◌↔◌, ◌≤◌};
ghost use Rattle.position.specs.Positions.{Proper};
ghost use Rattle.record.specs.Records.{count_of};
ghost use Rattle.format.specs.WellFormed.{NumberFits, HeadFits, TextFits, LineFits, WellFormed};
ghost use Rattle.format.specs.Steps.{SlotFits, PlaceFits, FieldsFit, Agrees};

use crate::{Edit, Patch, TEXT};
use position::{Identifier, Position};
use record::site::Site;
use record::{LAST_NUMBER, SITES, count_of, counts_fit};
use rows::moves::all_zero;

// Whether a patch with this text beside it is well-formed, for any values of both.
#[tactic(auto, using(crate::proofs::Parts::fields_agree))]
pub fn well_formed(p: Patch, text: &[u8; TEXT]) -> bool
    ensures { (result ≡ true) ↔ WellFormed p text.now }
{
    fields_fit(p, text) && agrees(p)
}

// Each field by itself.
fn fields_fit(p: Patch, text: &[u8; TEXT]) -> bool
    ensures { (result ≡ true) ↔ FieldsFit p text.now }
{
    head_fits(p.author, p.number)
        && counts_fit(p.before)
        && place_fits(p.place)
        && line_fits(p.edit, text)
}

// The author is a site, and the number a patch's.
fn head_fits(author: u8, number: u32) -> bool
    ensures { (result ≡ true) ↔ HeadFits author number }
{
    Site::try_from(u32::from(author)).is_ok() && number_fits(number)
}

// Whether a number is a patch's: 1 to 1,000,000.
pub fn number_fits(number: u32) -> bool
    ensures { (result ≡ true) ↔ NumberFits number }
{
    (1..=LAST_NUMBER).contains(&number)
}

// The place's identifiers, and the pads behind them.
fn place_fits(p: Position) -> bool
    ensures { (result ≡ true) ↔ PlaceFits p }
{
    (1..=Position::LIMIT).contains(&p.used)
        && p.ids
            .iter()
            .enumerate()
            .all(|(k, id)| slot_fits(*id, k < p.used))
}

// One identifier of a place: proper where it is used, otherwise the pad.
fn slot_fits(i: Identifier, used: bool) -> bool
    ensures { (result ≡ true) ↔ SlotFits i used }
{
    if used {
        identifier_fits(i)
    } else {
        i == Identifier::default()
    }
}

// Whether an identifier is the pad, or has both parts at least 1, and its site is at most 16.
pub fn identifier_fits(i: Identifier) -> bool
    ensures { (result ≡ true) ↔ Proper i }
{
    (i.site == 0) == (i.integer == 0) && usize::from(i.site) <= SITES
}

// The edit by itself, and what is unused of the text beside it.
fn line_fits(edit: Edit, text: &[u8; TEXT]) -> bool
    ensures { (result ≡ true) ↔ LineFits edit text.now }
{
    match edit {
        Edit::Insert(length) => text_fits(length, text),
        Edit::Delete(number) => number_fits(number) && text_fits(0, text),
    }
}

// Whether a text of this length has room, and what is behind it is zero.
fn text_fits(length: usize, text: &[u8; TEXT]) -> bool
    ensures { (result ≡ true) ↔ ((length ≤ 48) × TextFits length text.now) }
{
    length <= TEXT && all_zero(&text[length..])
}

// The fields against each other: the author's own entry in Before is its number less 1, the first
// integer leaves room below the end, and the last site of the place is the one that the edit asks for. Inlined, since
// a call copies the whole patch.
#[inline(always)]
#[tactic(auto, using(crate::proofs::Places::used_proper))]
pub fn agrees(p: Patch) -> bool
    requires { HeadFits p.author p.number × PlaceFits p.place }
    ensures { (result ≡ true) ↔ Agrees p }
{
    let author = Site { number: p.author };
    let last = p.place.ids[p.place.used - 1];
    count_of(p.before, author) == p.number - 1
        && p.place.ids[0].integer != 65535
        && match p.edit {
            Edit::Insert(_) => last.site == p.author,
            Edit::Delete(number) => covers(p.before, last.site, number),
        }
}

// Whether these counts have an entry of the site, of at least this number.
fn covers(counts: [u32; SITES], site: u8, number: u32) -> bool
    requires { site ≤ 16 }
    ensures { (result ≡ true) ↔ ((1 ≤ site) × (number ≤ count_of counts site)) }
{
    Site::try_from(u32::from(site)).is_ok_and(|site| number <= count_of(counts, site))
}
