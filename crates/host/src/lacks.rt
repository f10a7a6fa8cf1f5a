// What comparing gives, as bytes: sixteen times side (1), first (4), last (4).
ghost use Rattle.std.specs.Prelude.{◌≡◌, ◌+◌, ◌≤◌, length, map};
ghost use Rattle.rows.specs.Rows.{flat, written};
ghost use Rattle.replica.specs.Compare.{lack_given};
ghost use Rattle.host.specs.Calls.{lacks_size, lack_bytes};

use record::SITES;
use replica::compare::Missing;
use rows::numbers::Number;

pub const LACK: usize = 9;

pub const LACKS: usize = SITES * LACK;

// Writes what is lacked of each site, one behind the other.
pub fn write_lacks(sites: [Option<Missing>; SITES], res: &mut [u8])
    requires { length res.old ≡ lacks_size }
    ensures { res.new ≡ flat lack_bytes (map lack_given sites) }
{
    for (i, lack) in sites.iter().enumerate() {
        put_lack(*lack, res, i * LACK);
    }
}

// Writes what is lacked of one site: zeros where nothing is.
#[tactic(auto, using(crate::proofs::Sites::lack_written))]
fn put_lack(lack: Option<Missing>, res: &mut [u8], at: usize)
    requires { at + 9 ≤ length res.old }
    ensures { res.new ≡ written at (lack_bytes (lack_given lack)) res.old }
{
    match lack {
        None => {
            0u8.put(res, at);
            0u32.put(res, at + 1);
            0u32.put(res, at + 5);
        }
        Some(missing) => {
            u8::from(missing.more).put(res, at);
            missing.first.put(res, at + 1);
            missing.last.put(res, at + 5);
        }
    }
}
