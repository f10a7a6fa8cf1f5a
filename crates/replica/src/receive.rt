// Receiving a patch (01, 'Answer numbers').
ghost use Rattle.std.specs.Prelude.{◌≡◌, true, ◌&&◌, ◌↔◌, ◌≤◌, eqb, ltb};
ghost use Rattle.effect.specs.Effect.{inserts, is_row, Covers};
ghost use Rattle.effect.specs.Held.{came_to};
ghost use Rattle.replica.specs.Grounds.{full, own_count};
ghost use Rattle.replica.specs.Receive.{receive_call};

use effect::{Done, apply, is_row};
use format::answers::Refusal;
use format::{Edit, Patch};
use reader::read_one;
use record::site::Site;
use record::{Replica, SITES, count_of};
use script::table::Found;
use script::{ROWS, Script};
use sound::sound;

// Takes a patch that is its author's next and not early, and does what it does.
#[tactic(auto, using(crate::proofs::Tests::decisions, reader::proofs::Taken::some_taken, crate::proofs::Accepted::author_site), unfolding(crate::specs::Receive::receive_call, crate::specs::Receive::receive_checks, format::specs::Answers::first_of))]
pub fn receive(r: Replica, table: &mut [u8], bytes: &[u8]) -> Result<Done, Refusal>
    ensures { came_to r result table.new ≡ receive_call r table.old bytes.now }
{
    if !sound(r, table) {
        return Err(Refusal::Unsound);
    }
    let reading = read_one(bytes).ok_or(Refusal::Malformed)?;
    let p = reading.patch;
    if own_ahead(r, p) {
        return Err(Refusal::OwnAhead);
    }
    if p.number <= count_of(r.counts, Site { number: p.author }) {
        return Err(Refusal::Received);
    }
    if !covers(r.counts, p.before) {
        return Err(Refusal::Early);
    }
    let script = Script { replica: r, table };
    let found = script.find(&p.place);
    if taken(p.edit, found) {
        return Err(Refusal::PositionTaken);
    }
    if no_room(p.edit, r) {
        return Err(Refusal::Full);
    }
    Ok(apply(r, table, p, &reading.text, found))
}

// Whether the author is this site and the number is above its count. It asks for the range of the record's own site,
// since a `Site` beside the record would be a second own site.
fn own_ahead(r: Replica, p: Patch) -> bool
    requires { (1 ≤ r.site) × (r.site ≤ 16) }
    ensures { result ≡ (eqb p.author r.site && ltb (own_count r) p.number) }
{
    let own = Site { number: r.site };
    p.author == r.site && count_of(r.counts, own) < p.number
}

// Whether no entry of Before is above these counts.
fn covers(counts: [u32; SITES], before: [u32; SITES]) -> bool
    ensures { (result ≡ true) ↔ Covers counts before }
{
    before
        .iter()
        .zip(&counts)
        .all(|(entry, count)| entry <= count)
}

// Whether it is an insert, and a row has its position.
fn taken(edit: Edit, found: Found) -> bool
    ensures { result ≡ (inserts edit && is_row found) }
{
    matches!(edit, Edit::Insert(_)) && is_row(found)
}

// Whether it is an insert, and all rows are in use.
fn no_room(edit: Edit, r: Replica) -> bool
    ensures { result ≡ (inserts edit && full r) }
{
    matches!(edit, Edit::Insert(_)) && r.rows as usize == ROWS
}
