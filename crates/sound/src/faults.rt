// The faults of a row's bytes, or-ed together: 0 exactly where there is none. Each loop runs a fixed
// number of turns without an exit; what a turn looks at is chosen by a mask and not by a test, so the
// turns are lanes of a vector.
ghost use Rattle.std.specs.Prelude.{◌≡◌, ◌↔◌, ◌+◌, ◌*◌, ◌≤◌};
ghost use Rattle.position.specs.Positions.{Proper, identifier};
ghost use Rattle.rows.specs.Rows.{Upto};
ghost use Rattle.sound.specs.Steps.{SlotFits, TextFits};

use script::ROW;

// 48 zeros and 48 of 255: read from place 48 - n on, they mask out what stands before place n.
static BEHIND: [[u8; 48]; 2] = [[0; 48], [255; 48]];

// 255 at each byte where one of the eight identifiers starts. (32 and not 24: two whole vectors.)
#[rattlefmt::skip]
static STARTS: [u8; 32] = [
    255, 0, 0, 255, 0, 0, 255, 0, 0, 255, 0, 0, 255, 0, 0, 255,
    0, 0, 255, 0, 0, 255, 0, 0, 0, 0, 0, 0, 0, 0, 0, 0,
];

// Not 0 where an identifier is neither the pad nor has both parts, in range. A byte and not a bool: it is or-ed
// with bytes, lane by lane.
#[tactic(auto, using(rows::proofs::Turns::or_clear))]
fn slot_fault(high: u8, low: u8, site: u8) -> u8
    ensures { (result ≡ 0) ↔ Proper (identifier (high * 256 + low) site) }
{
    (((high | low) == 0) as u8 ^ (site == 0) as u8) | ((16 < site) as u8)
}

// 0 where each of a row's eight identifiers is proper and those that are unused have no site.
pub(crate) fn slot_faults(row: &[u8; ROW], used: usize) -> u8
    requires { used ≤ 8 }
    ensures { (result ≡ 0) ↔ Upto 32 (SlotFits used row.now) }
{
    let behind = &BEHIND.as_flattened()[48 - 3 * used..];
    let mut faults = 0;
    for j in 0..32 {
        let fault = slot_fault(row[j + 1], row[j + 2], row[j + 3]);
        faults |= (fault | (row[j + 3] & behind[j])) & STARTS[j];
    }
    faults
}

// 0 where what is unused of a row's text is zero.
#[tactic(auto, using(crate::proofs::Masked::text_more))]
pub(crate) fn text_faults(row: &[u8; ROW], used: usize) -> u8
    requires { used ≤ 48 }
    ensures { (result ≡ 0) ↔ Upto 48 (TextFits used row.now) }
{
    let behind = &BEHIND.as_flattened()[48 - used..];
    let mut faults = 0;
    for j in 0..48 {
        faults |= row[j + 30] & behind[j];
    }
    faults
}
