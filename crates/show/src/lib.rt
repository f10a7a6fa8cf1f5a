// What the programs of this repository write for which std has no form, bytes in hexadecimal and counts, each as a
// type that a `{}` takes; and how they read their input.
//
// Rests on `std` alone. What a `{}` then writes is specs/Text.antt; a write or a read that fails is returned as its
// error.
#![tactic(auto)]

ghost use Rattle.std.specs.Prelude.{◌≤◌, IfOk, Some, length};
ghost use Rattle.show.specs.Text.{hex_text, counts_text};

use std::io::Read;
use std::{fmt, io};

// Bytes in hexadecimal, two capital digits each.
#[derive(Clone, Copy)]
pub struct Hex<'a>(pub &'a [u8]);

// Counts, that of site 1 first. Those that are not zero are written, as site:count behind a space.
#[derive(Clone, Copy)]
pub struct Counts<'a>(pub &'a [u32]);

impl fmt::Display for Hex<'_> {
    ghost output = { λ h. Some (hex_text h.0.now) };

    fn fmt<W: fmt::Write>(&self, f: &mut fmt::Formatter<W>) -> fmt::Result {
        for &byte in self.0 {
            write!(f, "{byte:02X}")?;
        }
        Ok(())
    }
}

impl fmt::Display for Counts<'_> {
    ghost output = { λ c. Some (counts_text c.0.now) };

    fn fmt<W: fmt::Write>(&self, f: &mut fmt::Formatter<W>) -> fmt::Result {
        for (i, &count) in self.0.iter().enumerate() {
            if count != 0 {
                write!(f, " {}:{count}", i + 1)?;
            }
        }
        Ok(())
    }
}

// Fills a buffer from the front, up to the end of the input, and gives how many bytes were read. The loop
// counts by hand, since std's `read_to_end` needs the heap and `read_exact` refuses an input that ends early. Memory
// is fixed, so a length stands beside the buffer.
pub fn read_full<R: Read>(input: &mut R, buffer: &mut [u8]) -> io::Result<usize>
    ensures { IfOk result (λ n. n ≤ length buffer.new) }
{
    let mut n = 0;
    while n < buffer.len() {
        match input.read(&mut buffer[n..])? {
            0 => break,
            more => n += more,
        }
    }
    Ok(n)
}
