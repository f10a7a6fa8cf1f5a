// Patches read and written on the compiled code. Each line of the input is the bytes of one case in
// hexadecimal, good or damaged, or begins with `#` and says what follows. For each case it writes how
// many bytes `read_first` and `read_one` used (0: refused), then what the first reading holds, which is
// all zeros where it was refused; a patch that was read is written again, and its bytes shown. Then
// patches that are values and never were bytes are tried on the writer (`values`). The output is compared
// with the file `stdout`, which is made from the document.
//
// Rests on `reader`, `writer`, `format`, `record` and `position`, and on `show` to read and write.
#![tactic(auto)]

mod feed;
mod values;

ghost use Rattle.std.specs.Prelude.{◌≡◌};
ghost use Rattle.format.specs.Answers.{done_number};

use format::answers::{Refusal, Success, number};
use format::{Edit, MOST};
use reader::{Reading, read_first, read_one};
use show::{Counts, Hex};
use std::io;
use writer::write;

// The most bytes of input that are read.
const INPUT: usize = 65_536;

// The most bytes that a case has.
const CASE: usize = 400;

fn main(rt: HostRuntime) -> io::Result<()> {
    let mut input = [0u8; INPUT];
    let n = show::read_full(&mut rt.reader(), &mut input)?;
    show_cases(&rt, &input[..n])?;
    values::run(&rt)
}

fn show_cases(rt: &impl Print, input: &[u8]) -> io::Result<()> {
    for line in input.split_inclusive(|b| *b == b'\n') {
        show_case(rt, line.strip_suffix(b"\n").unwrap_or(line))?;
    }
    Ok(())
}

// A line of the input: what follows, or the bytes of a case.
fn show_case(rt: &impl Print, line: &[u8]) -> io::Result<()> {
    if let [b'#', ..] = line {
        rt.write_all(line)?;
        return println!(rt);
    }
    let mut bytes = [0u8; CASE];
    let n = feed::from_hex(line, &mut bytes);
    show_read(rt, &bytes[..n])
}

fn show_read(rt: &impl Print, bytes: &[u8]) -> io::Result<()> {
    let first = read_first(bytes);
    let shown = first.unwrap_or_default();
    let one = read_one(bytes).unwrap_or_default();
    print!(rt; "first {}, one {}", shown.used, one.used)?;
    show_patch(rt, shown)?;
    if let Some(reading) = first {
        show_again(rt, reading)?;
    }
    Ok(())
}

// What a reading holds, refused or not.
fn show_patch(rt: &impl Print, r: Reading) -> io::Result<()> {
    let p = r.patch;
    print!(rt;
        ": author {}, number {}, before{}",
        p.author,
        p.number,
        Counts(&p.before)
    )?;
    print!(rt; ", place {}", p.place)?;
    match p.edit {
        Edit::Insert(length) => print!(rt; ", insert of {length}")?,
        Edit::Delete(number) => print!(rt; ", delete of {number}")?,
    }
    println!(rt; ", beside {}", Hex(&r.text))
}

// Writes what was read again.
fn show_again(rt: &impl Print, r: Reading) -> io::Result<()> {
    let mut buffer = [0u8; MOST];
    let written = write(r.patch, &r.text, &mut buffer);
    let length = written.unwrap_or(0).min(MOST);
    println!(rt;
        "again {}, {}",
        write_number(written),
        Hex(&buffer[..length])
    )
}

// The number of the writer's answer.
fn write_number(written: Result<usize, Refusal>) -> u32
    ensures { result ≡ done_number written }
{
    number(written.map(|_| Success::Done))
}
