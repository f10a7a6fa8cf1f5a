// What the listing program writes (01, 'Listing program'): a line for each patch of the input, with its
// place and its answer, then the number of rows and the rows. The program itself, crate `listing`, only
// reads, calls `list` and writes.
//
// Rests on `lent` for the replica that is fed, on `reader` for where a patch ends, on `script` for what
// stands in a row, and on `rows` to copy bytes. What is written for every input is one definition,
// specs/Listing.antt; that it is never longer than LONGEST is proofs/Longest.antt.
#![tactic(auto)]

mod lines;
mod output;
mod patches;

ghost use Rattle.std.specs.Prelude.{◌≡◌, ◌≤◌, length};
ghost use Rattle.script.specs.Lines.{table_size};
ghost use Rattle.listed.specs.Output.{behind};
ghost use Rattle.listed.specs.Listing.{most_input, listing};
ghost use Rattle.listed.specs.Steps.{Feeds};

use format::answers::Refusal;
use lent::{receive, start};
use output::Output;
use patches::Patches;
use record::Replica;
use script::{Script, TABLE};

// The most bytes of input that are listed.
pub const MOST: usize = 65_536;

// No listing has more bytes than this.
pub const LONGEST: usize = 131_072;

// The site of the replica that is fed.
const SITE: u32 = 16;

// Lists the patches of an input and the rows that they leave: puts what is written at the front of `out`,
// as much as there is room for, and gives its length: memory is fixed, and the buffer is the caller's.
pub fn list(input: &[u8], out: &mut [u8]) -> usize
    ensures { record { length = result; bytes = out.new } ≡ behind (listing input.now) (record { length = 0; bytes = out.old }) }
{
    let mut output = Output {
        bytes: out,
        length: 0,
    };
    if MOST < input.len() {
        output.put(b"too long\n");
    } else {
        let mut table = [0u8; TABLE];
        let replica = feed(input, &mut table, &mut output);
        output.show_rows(Script {
            replica,
            table: &table,
        });
    }
    output.length
}

// Feeds the patches of an input to a fresh replica, up to the first that is malformed, and puts out a line
// for each.
fn feed(input: &[u8], table: &mut [u8; TABLE], out: &mut Output) -> Replica
    requires { length input.now ≤ most_input }
    ensures { Feeds input.now result table.new out.old out.new }
{
    let mut replica = Replica::default();
    // Site 16 and a table of the right length are never refused.
    start(&mut replica, table, SITE).unwrap();
    for (k, patch) in Patches(input).enumerate() {
        let answer = receive(&mut replica, table, patch);
        out.patch_line(k + 1, answer);
        if answer == Err(Refusal::Malformed) {
            break;
        }
    }
    replica
}
