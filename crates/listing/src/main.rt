// The listing program (01, 'Listing program'): lists the patches on standard input, each with its answer, and
// the rows that they leave.
//
// Rests on `listed`, which says what is written, and on `show` to read. It asks for a byte more
// than is listed, so that an input that is too long is seen to be.
#![tactic(auto)]

use listed::{LONGEST, MOST, list};
use std::io;

fn main(rt: HostRuntime) -> io::Result<()> {
    let mut input = [0u8; MOST + 1];
    let n = show::read_full(&mut rt.reader(), &mut input)?;
    let mut out = [0u8; LONGEST];
    let m = list(&input[..n], &mut out);
    rt.write_all(&out[..m])
}
