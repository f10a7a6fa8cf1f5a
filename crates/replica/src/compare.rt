// Comparing two sets of sixteen counts (01, 'Answer numbers').
ghost use Rattle.std.specs.Prelude.{◌≡◌};
ghost use Rattle.replica.specs.Compare.{lack_of, compare_call, compared, lack_given, side_number};

use format::answers::Refusal;
use record::{SITES, counts_fit};
use std::cmp::Ordering;

// Which of the two sides has more of a site's patches.
#[derive(Clone, Copy, Debug, PartialEq, Eq)]
pub enum Side {
    First = 1,
    Second = 2,
}

// "0 none, 1 first, 2 second": the number of the side.
impl From<Side> for u8 {
    ghost from_gives = { λ side n. n ≡ side_number side };

    fn from(side: Side) -> u8 {
        side as u8
    }
}

// What one side lacks of a site's patches: which side has them, and the first and last number that the other side
// lacks.
#[derive(Clone, Copy, Debug, PartialEq, Eq)]
pub struct Missing {
    pub more: Side,
    pub first: u32,
    pub last: u32,
}

// Compares two sets of counts, site by site: none where neither side lacks anything.
#[tactic(auto, using(crate::proofs::Tests::tests, crate::proofs::Compared::all_given), unfolding(crate::specs::Compare::compare_call, crate::specs::Compare::compare_checks, format::specs::Answers::first_of))]
pub fn compare_counts(
    first: [u32; SITES],
    second: [u32; SITES],
) -> Result<[Option<Missing>; SITES], Refusal>
    ensures { compared result ≡ compare_call first second }
{
    if !counts_fit(first) || !counts_fit(second) {
        return Err(Refusal::Unsound);
    }
    let mut sites = [None; SITES];
    for i in 0..SITES {
        sites[i] = missing_of(first[i], second[i]);
    }
    Ok(sites)
}

// What one side lacks, of two counts of a site.
#[tactic(auto, unfolding(crate::specs::Compare::lack_of))]
fn missing_of(first: u32, second: u32) -> Option<Missing>
    ensures { lack_given result ≡ lack_of first second }
{
    match first.cmp(&second) {
        Ordering::Equal => None,
        Ordering::Greater => Some(Missing {
            more: Side::First,
            first: second + 1,
            last: first,
        }),
        Ordering::Less => Some(Missing {
            more: Side::Second,
            first: first + 1,
            last: second,
        }),
    }
}
