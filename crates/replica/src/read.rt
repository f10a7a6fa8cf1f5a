// Reading a row's text (01, 'Answer numbers').
ghost use Rattle.std.specs.Prelude.{◌≡◌};
ghost use Rattle.replica.specs.Read.{read_call, text_read};

use format::answers::Refusal;
use record::Replica;
use script::table::text;
use sound::sound;

// The text of a row, as a part of the table.
#[tactic(auto, using(crate::proofs::Tests::tests), unfolding(crate::specs::Read::read_call, crate::specs::Read::read_checks, format::specs::Answers::first_of))]
pub fn read_row(r: Replica, table: &[u8], row: usize) -> Result<&[u8], Refusal>
    ensures { text_read result ≡ read_call r table.now row }
{
    if !sound(r, table) {
        return Err(Refusal::Unsound);
    }
    if r.rows as usize <= row {
        return Err(Refusal::NoRow);
    }
    Ok(text(table, row))
}
