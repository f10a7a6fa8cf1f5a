// The lines of a listing: that of a patch, and those of the rows.
ghost use Rattle.position.specs.Positions.{ids_of};
ghost use Rattle.script.specs.Lines.{decode_table};
ghost use Rattle.format.specs.Answers.{answer_number};
ghost use Rattle.listed.specs.Steps.{Puts};
ghost use Rattle.listed.specs.Text.{identifier_text, position_text, patch_line, row_line, rows_text};

use crate::output::Output;
use format::answers::{Refusal, Success, number};
use position::{Identifier, Position};
use script::{ROW, Script, row, table};

impl Output<'_> {
    // Puts in the line of a patch: its place in the input, and the number of its answer.
    pub fn patch_line(&mut self, place: usize, answer: Result<Success, Refusal>)
        ensures { Puts (patch_line place (answer_number answer)) self.old self.new }
    {
        let answer = number(answer);
        self.number(place);
        self.put(b" ");
        self.number(answer as usize);
        self.put(b"\n");
    }

    // Puts in the number of rows, and a line for each row.
    #[tactic(auto, using(script::proofs::Scripts::held_there))]
    pub fn show_rows(&mut self, script: Script)
        ensures { Puts (rows_text (decode_table script.entry.replica.rows script.entry.table.now)) self.old self.new }
    {
        let rows = script.replica.rows as usize;
        self.put(b"rows ");
        self.number(rows);
        self.put(b"\n");
        for k in 0..rows {
            let row = &script.table[k * ROW..];
            self.row_line(
                k + 1,
                &row::position(row),
                row::number(row),
                table::text(script.table, k),
            );
        }
    }

    // Puts in the line of a row: its place, its position, its number, its text.
    fn row_line(&mut self, place: usize, position: &Position, line: u32, text: &[u8])
        ensures { Puts (row_line place (record { position = ids_of position.now; number = line; text = text.now })) self.old self.new }
    {
        self.number(place);
        self.put(b" ");
        self.position_text(position);
        self.put(b" ");
        self.number(line as usize);
        self.put(b" ");
        self.put(text);
        self.put(b"\n");
    }

    // Puts in a position: its identifiers, joined by commas. No `Display`, for the reason given at `number`.
    fn position_text(&mut self, p: &Position)
        ensures { Puts (position_text (ids_of p.now)) self.old self.new }
    {
        for (i, id) in p.identifiers().iter().enumerate() {
            if 0 < i {
                self.put(b",");
            }
            self.identifier_text(*id);
        }
    }

    // Puts in an identifier, as integer.site. No `Display`, for the same reason.
    fn identifier_text(&mut self, id: Identifier)
        ensures { Puts (identifier_text id) self.old self.new }
    {
        self.number(id.integer as usize);
        self.put(b".");
        self.number(id.site as usize);
    }
}
