// Own edits (01, 'Answer numbers'): the patch that one makes, written and done.
ghost use Rattle.std.specs.Prelude.{◌≡◌, ◌≤◌, ◌<◌, length};
ghost use Rattle.script.specs.Lines.{decode_table};
ghost use Rattle.format.specs.Patches.{most_size};
ghost use Rattle.effect.specs.Effect.{done_answer};
ghost use Rattle.effect.specs.Steps.{Ready};
ghost use Rattle.replica.specs.Grounds.{own_count};
ghost use Rattle.edits.specs.Own.{own_patch, own_edit, own_outcome};

use crate::Edited;
use effect::apply;
use format::{Edit, Patch, TEXT};
use position::Position;
use record::site::Site;
use record::{Replica, count_of};
use script::table::Found;
use writer::write;

// The patch of an own edit: the next of this site, after all that it has received. It asks for the range of the record's
// own site, since a `Site` beside the record would be a second own site.
pub fn own_patch(r: Replica, place: Position, edit: Edit) -> Patch
    requires { (1 ≤ r.site) × ((r.site ≤ 16) × (own_count r < 1000000)) }
    ensures { result ≡ own_patch r place edit }
{
    let own = Site { number: r.site };
    let counts = r.counts;
    Patch {
        author: r.site,
        number: count_of(counts, own) + 1,
        before: counts,
        place,
        edit,
    }
}

// Writes an own patch, and does what it does.
#[tactic(auto, using(writer::proofs::Writes::written_done, crate::proofs::Told::done_ok), unfolding(crate::specs::Own::own_edit))]
pub fn own_edit(
    r: Replica,
    table: &mut [u8],
    p: Patch,
    text: &[u8; TEXT],
    found: Found,
    buffer: &mut [u8],
) -> Edited
    requires { Ready r table.old p text.now found × ((most_size ≤ length buffer.old) × (done_answer p p.edit (decode_table r.rows table.old) ≡ 0)) }
    ensures { own_outcome r (Ok result) table.new buffer.new ≡ own_edit r table.old buffer.old p text.now }
{
    // never refused: there is room, and an own patch is well-formed
    let length = write(p, text, buffer).unwrap();
    let done = apply(r, table, p, text, found);
    Edited {
        replica: done.replica,
        length,
    }
}
