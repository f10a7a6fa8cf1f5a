// Patches that are values and never were bytes, tried on the writer. Each is one case of a table, and differs
// from `go`, the second patch of the listing example, by what its name says.
use crate::write_number;
use format::{Edit, MOST, Patch, TEXT};
use position::{Identifier, Position};
use record::SITES;
use record::site::Site;
use show::Hex;
use std::io;
use writer::write;

// What the buffers of a case hold before it.
const SEVEN: u8 = 7;

// Values that no bytes would read as, and some at the edge that are well-formed.
pub fn run(rt: &impl Print) -> io::Result<()> {
    try_buffers(rt)?;
    try_heads(rt)?;
    try_befores(rt)?;
    try_places(rt)?;
    try_inserts(rt)?;
    try_deletes(rt)
}

// Buffers shorter and longer than the 161 bytes asked for, whether or not the patch would fit: the first bytes
// of 170. What then stands in front and behind is shown.
fn try_buffers(rt: &impl Print) -> io::Result<()> {
    for (name, author, room) in [
        ("a buffer of 0 bytes", 1, 0),
        ("a buffer of 160 bytes", 1, 160),
        ("a buffer of 161 bytes", 1, 161),
        ("a buffer of 170 bytes", 1, 170),
        ("author 0, a buffer of 160 bytes", 0, 160),
        ("author 0, a buffer of 161 bytes", 0, 161),
    ] {
        let p = Patch { author, ..go() };
        show_written(rt, name, p, &go_text(), &mut [SEVEN; 170], room)?;
    }
    Ok(())
}

fn try_heads(rt: &impl Print) -> io::Result<()> {
    for (name, author, number) in [
        ("author 17", 17, 1),
        ("author 2, whose place ends in 1", 2, 1),
        ("number 0", 1, 0),
        ("number 2 without an own entry", 1, 2),
        ("number 1000001", 1, 1000001),
    ] {
        let p = Patch {
            author,
            number,
            ..go()
        };
        try_value(rt, name, p, &go_text())?;
    }
    Ok(())
}

fn try_befores(rt: &impl Print) -> io::Result<()> {
    let first = Site { number: 1 };
    let last = Site { number: 16 };
    for (name, number, site, count) in [
        ("number 1 with an own entry", 1, first, 1),
        ("number 2 with own entry 1", 2, first, 1),
        ("number 3 with own entry 1", 3, first, 1),
        (
            "number 1000000 with own entry 999999",
            1000000,
            first,
            999999,
        ),
        ("site 16 at 1000000", 1, last, 1000000),
        ("site 16 at 1000001", 1, last, 1000001),
    ] {
        let before = received(site, count);
        let p = Patch {
            number,
            before,
            ..go()
        };
        try_value(rt, name, p, &go_text())?;
    }
    Ok(())
}

fn try_places(rt: &impl Print) -> io::Result<()> {
    let pad = Identifier::default();
    for (name, used, first, second) in [
        ("no identifier", 0, id(1, 1), pad),
        ("nine identifiers", 9, id(1, 1), pad),
        ("a pad at the end", 2, id(1, 1), pad),
        ("something behind the used ones", 1, id(1, 1), id(1, 1)),
        ("a second identifier", 2, id(1, 1), id(1, 1)),
        ("a second identifier of site 17", 2, id(1, 1), id(1, 17)),
        ("a second identifier of integer 0", 2, id(1, 1), id(0, 1)),
        ("a first integer of 65534", 1, id(65534, 1), pad),
        ("a first integer of 65535", 1, id(65535, 1), pad),
    ] {
        let place = place(used, first, second);
        try_value(rt, name, Patch { place, ..go() }, &go_text())?;
    }
    Ok(())
}

fn try_inserts(rt: &impl Print) -> io::Result<()> {
    for (name, length, text) in [
        ("a text of 1 with a byte behind it", 1, go_text()),
        ("a text of 48", 48, go_text()),
        ("a text of 49", 49, go_text()),
        ("no text", 0, [0; TEXT]),
    ] {
        let edit = Edit::Insert(length);
        try_value(rt, name, Patch { edit, ..go() }, &text)?;
    }
    Ok(())
}

// Deletes by site 3 of a line of site 1, of which it had received this many patches.
fn try_deletes(rt: &impl Print) -> io::Result<()> {
    for (name, count, number, text) in [
        ("a delete without an entry", 0, 1, [0; TEXT]),
        ("a delete of number 0", 1, 0, [0; TEXT]),
        ("a delete of number 1", 1, 1, [0; TEXT]),
        ("a delete of number 2, above the entry", 1, 2, [0; TEXT]),
        ("a delete with a text", 1, 1, go_text()),
    ] {
        let before = received(Site { number: 1 }, count);
        let edit = Edit::Delete(number);
        try_value(
            rt,
            name,
            Patch {
                author: 3,
                before,
                edit,
                ..go()
            },
            &text,
        )?;
    }
    Ok(())
}

// Writes a value into a buffer of just the bytes asked for.
fn try_value(rt: &impl Print, name: &str, p: Patch, text: &[u8; TEXT]) -> io::Result<()> {
    show_written(rt, name, p, text, &mut [SEVEN; MOST], MOST)
}

// Writes into the first bytes of a buffer, and shows what the writer answers and the whole buffer after it.
fn show_written(
    rt: &impl Print,
    name: &str,
    p: Patch,
    text: &[u8; TEXT],
    buffer: &mut [u8],
    room: usize,
) -> io::Result<()> {
    let room = room.min(buffer.len());
    let written = write(p, text, &mut buffer[..room]);
    let number = write_number(written);
    let length = written.unwrap_or(0);
    println!(rt;
        "{name}: answer {number}, length {length}, buffer {}",
        Hex(buffer)
    )
}

// `go`, the second patch of the listing example.
fn go() -> Patch {
    Patch {
        author: 1,
        number: 1,
        before: [0; SITES],
        place: place(1, id(1, 1), Identifier::default()),
        edit: Edit::Insert(2),
    }
}

fn go_text() -> [u8; TEXT] {
    let mut text = [0; TEXT];
    text[..2].copy_from_slice(b"go");
    text
}

fn id(integer: u16, site: u8) -> Identifier {
    Identifier { integer, site }
}

// A place of two identifiers, pads behind them, of which this many are in use.
fn place(used: usize, first: Identifier, second: Identifier) -> Position {
    let mut ids = [Identifier::default(); Position::LIMIT];
    ids[0] = first;
    ids[1] = second;
    Position { used, ids }
}

// Before, where patches of one site alone have been received.
fn received(site: Site, count: u32) -> [u32; SITES] {
    let mut counts = [0; SITES];
    counts[site.index()] = count;
    counts
}
