// P1 to P11 of 01's 'Examples on both sides': what the compiled `compare` and `place` answer. That the
// definitions give these answers is proved (crates/position/proofs/Examples.antt); this shows that the
// compiled code does.
//
// A comparison writes `below`, `same` or `above`. A place writes what each draw gives: draw 0, the last draw
// of its run and the draw after that, which is the run's first, last and first again; or one draw alone. Where
// there is no place it writes `none`.
use position::order::compare;
use position::place::place;
use position::{Identifier, Position};
use std::cmp::Ordering;
use std::io;

// Writes what each case answers.
pub fn run(rt: &impl Print) -> io::Result<()> {
    let p4 = position(&[id(2, 4)]);
    let q4 = position(&[id(10, 5)]);
    let p6 = position(&[id(5, 1), id(1, 6), id(10, 2)]);
    let q6 = position(&[id(5, 1), id(2, 1), id(15, 2)]);
    let q9 = position(&[id(2, 4), id(1, 3)]);
    let mut ids_11 = [id(65535, 9); Position::LIMIT];
    ids_11[0] = id(5, 3);
    let p11 = position(&ids_11);
    let q11 = position(&[id(5, 4), id(9, 3)]);
    let p1 = position(&[id(2, 4), id(9, 9)]);
    show_order(rt, "P1", &p1, &position(&[id(2, 5)]))?;
    show_order(rt, "P2", &p4, &position(&[id(2, 4), id(1, 1)]))?;
    show_places(
        rt,
        "P3",
        &Position::begin(),
        &Position::end(),
        3,
        &ends(65533),
    )?;
    show_places(rt, "P4", &p4, &q4, 4, &ends(7))?;
    show_places(rt, "P4 draw 9", &p4, &q4, 4, &[9])?;
    show_places(rt, "P5", &p4, &q4, 5, &ends(7))?;
    show_places(rt, "P6", &p6, &q6, 7, &ends(0))?;
    show_places(rt, "P7", &p6, &q6, 1, &ends(0))?;
    show_places(rt, "P8", &p6, &q6, 6, &ends(65525))?;
    show_places(rt, "P9", &p4, &q9, 2, &ends(0))?;
    show_places(rt, "P10", &p4, &q9, 5, &ends(65534))?;
    show_places(rt, "P11 draw 0", &p11, &q11, 2, &[0])
}

fn id(integer: u16, site: u8) -> Identifier {
    Identifier { integer, site }
}

// The position of these identifiers, of which it has at most 8.
fn position(ids: &[Identifier]) -> Position {
    let mut p = Position::default();
    for (slot, id) in p.ids.iter_mut().zip(ids) {
        *slot = *id;
    }
    p.used = ids.len();
    p
}

// The first draw of a run, the last, and the one after it.
fn ends(last: u16) -> [u32; 3] {
    let last = u32::from(last);
    [0, last, last + 1]
}

fn show_order(rt: &impl Print, name: &str, p: &Position, q: &Position) -> io::Result<()> {
    let order = match compare(p, q) {
        Ordering::Less => "below",
        Ordering::Equal => "same",
        Ordering::Greater => "above",
    };
    println!(rt; "{name} {order}")
}

fn show_places(
    rt: &impl Print,
    name: &str,
    p: &Position,
    q: &Position,
    site: u8,
    draws: &[u32],
) -> io::Result<()> {
    print!(rt; "{name}")?;
    for draw in draws {
        match place(p, q, site, *draw) {
            Some(new) => print!(rt; " {new}")?,
            None => print!(rt; " none")?,
        }
    }
    println!(rt)
}
