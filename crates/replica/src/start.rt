// Starting a replica (01, 'Answer numbers').
ghost use Rattle.std.specs.Prelude.{◌≡◌};
ghost use Rattle.replica.specs.Start.{start_call, started};

use format::answers::Refusal;
use record::site::Site;
use record::{Replica, SITES};
use rows::moves::clear;
use script::TABLE;

// Sets the own site, and zeroes rows in use, counts and table, whatever stood there. The site is taken
// whole: 272 is none.
#[tactic(auto, using(crate::proofs::Tests::tests, crate::proofs::Started::no_lines), unfolding(crate::specs::Start::start_call, crate::specs::Start::start_checks, format::specs::Answers::first_of))]
pub fn start(r: Replica, table: &mut [u8], site: u32) -> Result<Replica, Refusal>
    ensures { started r result table.new ≡ start_call r table.old site }
{
    let site = Site::try_from(site)?;
    if table.len() != TABLE {
        return Err(Refusal::Unsound);
    }
    clear(table);
    Ok(Replica {
        site: site.number,
        rows: 0,
        counts: [0; SITES],
    })
}
