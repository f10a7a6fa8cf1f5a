// 01's worked examples, run: P1 to P11 (`positions`), and those that are calls (`calls`), each made on a
// record that a host keeps and lends. The output is compared with the file `stdout`, which is written from
// the document.
//
// Rests on `position` for P1 to P11, on `lent` for the calls, and on `show` to write.
#![tactic(auto)]

mod calls;
mod positions;

use std::io;

fn main(rt: HostRuntime) -> io::Result<()> {
    positions::run(&rt)?;
    calls::run(&rt)
}
