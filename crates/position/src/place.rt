// The place of a new line (01, 'A new place'): between two neighbours, the shortest position that the
// rule allows, its integer chosen by the caller's draw.
//
// Rests on `order`: every bound below comes from comparing positions, so no second order can creep
// in. The rule itself, as a statement that knows no algorithm, is specs/Rule.antt; that `place`
// follows it, in both directions, is proofs/Made.antt.
ghost use Rattle.std.specs.Prelude.{◌≡◌, ◌+◌, ◌<◌, ◌≤◌, cond, max};
ghost use Rattle.position.specs.Positions.{ids_of, position_of};
ghost use Rattle.position.specs.Rule.{padded};
ghost use Rattle.position.specs.Place.{Front, front_at, x_of, next_integer, first_over, place_of, placed};

use crate::{Identifier, Position};
use std::cmp::Ordering;

// The place of a new line of this site between p and q. It tries the fronts in their order, and the
// first that has candidates behind it decides. (0, s) is no identifier, so x is never below 1.
#[tactic(auto, using(crate::proofs::Rooms::room_starts))]
pub fn place(p: &Position, q: &Position, site: u8, draw: u32) -> Option<Position>
    ensures { result ≡ placed (place_of (ids_of p.now) (ids_of q.now) site draw) }
{
    for k in 0..Position::LIMIT {
        let front = front_at(p, q, k);
        let lo = first_over(true, p, &front, site).max(1);
        let past = first_over(false, q, &front, site);
        if lo < past {
            let x = x_of(lo, past - lo, draw);
            return Some(front.followed_by(x, site));
        }
    }
    None
}

// The choice of x: of the c numbers from lo on, the one that the draw picks.
#[tactic(auto, unfolding(crate::specs::Place::x_of))]
fn x_of(lo: u32, c: u32, draw: u32) -> u16
    requires some { 0 < c }
    requires fits { lo + c ≤ 65536 }
    ensures { result ≡ x_of lo c draw }
{
    (lo + draw % c) as u16
}

// The choice of what stands in front, numbered in the order of trying: P's first k identifiers. Which fronts
// are tried is decided here alone, so both neighbours are at hand, though Q is not looked at.
#[tactic(auto, unfolding(crate::specs::Place::front_at))]
fn front_at(p: &Position, q: &Position, k: usize) -> Position
    requires { k < 8 }
    ensures { result ≡ position_of (front_at (ids_of p.now) (ids_of q.now) k) }
{
    padded(p, k)
}

// The first n identifiers of p, continued by pads where p is shorter.
#[tactic(auto, using(crate::proofs::Ids::front_filled))]
fn padded(p: &Position, n: usize) -> Position
    requires { n < 8 }
    ensures { result ≡ position_of (padded (ids_of p.now) n) }
{
    let own = n.min(p.length());
    let mut ids = [Identifier::default(); Position::LIMIT];
    ids[..own].copy_from_slice(&p.identifiers()[..own]);
    Position { used: n, ids }
}

// The first x for which a candidate behind this front lies over the neighbour; the candidate that is the
// neighbour itself counts as over it too, unless what is asked for is what lies strictly over it.
#[tactic(auto, using(crate::proofs::Ids::position_ids), unfolding(crate::specs::Place::first_over))]
fn first_over(strictly: bool, neighbour: &Position, front: &Position, site: u8) -> u32
    requires { Front front.now }
    ensures first { result ≡ first_over (cond strictly 1 0) (ids_of neighbour.now) (ids_of front.now) site }
    ensures most { result ≤ 65536 }
{
    let n = front.length();
    match front.cmp(&neighbour.cut(n)) {
        Ordering::Less => 65536,
        Ordering::Greater => 0,
        Ordering::Equal => {
            let i = next_integer(neighbour, n);
            match front.followed_by(i, site).cmp(neighbour) {
                Ordering::Less => u32::from(i) + 1,
                Ordering::Equal => u32::from(i) + u32::from(strictly),
                Ordering::Greater => u32::from(i),
            }
        }
    }
}

// The integer of the identifier that p has after its first n, or 0 where it has none.
fn next_integer(p: &Position, n: usize) -> u16
    ensures { result ≡ next_integer (ids_of p.now) n }
{
    p.identifiers().get(n).map_or(0, |i| i.integer)
}
