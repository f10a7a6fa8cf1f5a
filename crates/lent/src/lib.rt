// The operations over a lent record (01, 'The record and the table': "The caller keeps this record and
// lends it to each call, which brings it up to date").
//
// Rests on `replica` and `edits`, whose operations take the record by value, and is a thin entry for each, because 01
// asks for both: it hands on a copy of the record, stores the record that comes back, and gives the rest of the
// answer. Where a call refuses, the record is left as it is.
// What an entry gives is the operation's own definition, with the record behind the reference at exit.
//
// `replica::compare` has no entry: it takes two sets of counts and no record.
#![tactic(auto)]

ghost use Rattle.std.specs.Prelude.{◌≡◌};
ghost use Rattle.format.specs.Answers.{answer_number, done_number, length_given};
ghost use Rattle.replica.specs.Start.{start_call};
ghost use Rattle.replica.specs.Receive.{receive_call};
ghost use Rattle.replica.specs.Read.{read_call, text_read};
ghost use Rattle.edits.specs.Insert.{insert_call};
ghost use Rattle.edits.specs.Delete.{delete_call};

use format::answers::{Refusal, Success};
use record::Replica;

// Starts the replica as this site, whatever stood in record and table.
pub fn start(r: &mut Replica, table: &mut [u8], site: u32) -> Result<(), Refusal>
    ensures { record { answer = done_number result; replica = r.new; table = table.new } ≡ start_call r.old table.old site }
{
    *r = replica::start::start(*r, table, site)?;
    Ok(())
}

// Inserts a line with this text before a row. The patch is written at the front of the buffer; its length is given.
pub fn insert(
    r: &mut Replica,
    table: &mut [u8],
    row: usize,
    draw: u32,
    text: &[u8],
    buffer: &mut [u8],
) -> Result<usize, Refusal>
    ensures { record { answer = done_number result; replica = r.new; table = table.new; length = length_given result; buffer = buffer.new } ≡ insert_call r.old table.old row draw text.now buffer.old }
{
    let edited = edits::insert::insert(*r, table, row, draw, text, buffer)?;
    *r = edited.replica;
    Ok(edited.length)
}

// Deletes the line of a row. The patch is written at the front of the buffer; its length is given.
pub fn delete(
    r: &mut Replica,
    table: &mut [u8],
    row: usize,
    buffer: &mut [u8],
) -> Result<usize, Refusal>
    ensures { record { answer = done_number result; replica = r.new; table = table.new; length = length_given result; buffer = buffer.new } ≡ delete_call r.old table.old row buffer.old }
{
    let edited = edits::delete::delete(*r, table, row, buffer)?;
    *r = edited.replica;
    Ok(edited.length)
}

// Receives a patch.
pub fn receive(r: &mut Replica, table: &mut [u8], bytes: &[u8]) -> Result<Success, Refusal>
    ensures { record { answer = answer_number result; replica = r.new; table = table.new } ≡ receive_call r.old table.old bytes.now }
{
    let done = replica::receive::receive(*r, table, bytes)?;
    *r = done.replica;
    Ok(done.success)
}

// The text of a row, as a part of the table. Reading changes no record.
pub fn read_row<'a>(r: &Replica, table: &'a [u8], row: usize) -> Result<&'a [u8], Refusal>
    ensures { text_read result ≡ read_call r.now table.now row }
{
    replica::read::read_row(*r, table, row)
}
