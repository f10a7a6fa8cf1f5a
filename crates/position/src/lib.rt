// Positions of lines (01, 'Positions'; INRIA RR-6713, definitions 1 to 3): what an identifier and a
// position are. The order of positions is `order`, the place of a new line is `place`.
//
// Rests on nothing. Every public function takes any value whatever of these types, ends, and gives the
// one answer that its definition in specs/ gives; none refuses or traps. A position's value is read by
// its `used` first identifiers, at most 8; every value that this crate hands out has pads behind them,
// so that each list of identifiers has one value (specs/Positions.antt).
#![tactic(auto)]

pub mod order;
pub mod place;

ghost use Rattle.std.specs.Prelude.{◌≡◌, [], ◌∷◌, length, take, Some};
ghost use Rattle.position.specs.Positions.{identifier, begin, end, ids_of, position_of};
ghost use Rattle.position.specs.Rule.{followed_by};
ghost use Rattle.position.specs.Place.{Front};
ghost use Rattle.position.specs.Text.{identifier_text, position_text};

use std::fmt;

// An identifier is (integer, site). "Identifiers are ordered by integer, then by site": the derived order.
#[derive(Clone, Copy, Debug, Default, PartialEq, Eq, PartialOrd, Ord)]
pub struct Identifier {
    pub integer: u16,
    pub site: u8,
}

// The pad is the default identifier, and the default position has no identifier at all: what positions
// are built from. `used` stands beside an array of eight, since memory is fixed and 01's layouts have the pads there.
#[derive(Clone, Copy, Debug, Default)]
pub struct Position {
    pub used: usize,
    pub ids: [Identifier; Position::LIMIT],
}

impl Position {
    // The most identifiers that a position has.
    pub const LIMIT: usize = 8;

    // The end that stands before every line, (0,0).
    pub fn begin() -> Position
        ensures { result ≡ position_of begin }
    {
        Position::an_end(0)
    }

    // The end that stands behind every line, (65535,0).
    pub fn end() -> Position
        ensures { result ≡ position_of end }
    {
        Position::an_end(65535)
    }

    // An end is one identifier of site 0, which no line's position ends in.
    fn an_end(integer: u16) -> Position
        ensures { result ≡ position_of (identifier integer 0 ∷ []) }
    {
        Position::default().followed_by(integer, 0)
    }

    // The identifiers of this value: as many as `used` says, but never more than there are.
    pub fn identifiers(&self) -> &[Identifier]
        ensures { result.now ≡ ids_of self.now }
    {
        &self.ids[..self.used.min(Position::LIMIT)]
    }

    // How many they are.
    pub fn length(self) -> usize
        ensures { result ≡ length (ids_of self) }
    {
        self.identifiers().len()
    }

    // The first n identifiers, or all where there are fewer. What is behind them stays as it was.
    fn cut(&self, n: usize) -> Position
        ensures { ids_of result ≡ take n (ids_of self.now) }
    {
        Position {
            used: self.used.min(n),
            ..*self
        }
    }

    // This front, then one identifier more.
    #[tactic(auto, using(crate::proofs::Ids::extended))]
    fn followed_by(&self, integer: u16, site: u8) -> Position
        requires { Front self.now }
        ensures { result ≡ position_of (followed_by (ids_of self.now) integer site) }
    {
        let mut longer = *self;
        longer.ids[self.used] = Identifier { integer, site };
        longer.used += 1;
        longer
    }
}

impl fmt::Display for Identifier {
    ghost output = { λ i. Some (identifier_text i) };

    fn fmt<W: fmt::Write>(&self, f: &mut fmt::Formatter<W>) -> fmt::Result {
        write!(f, "{}.{}", self.integer, self.site)
    }
}

impl fmt::Display for Position {
    ghost output = { λ p. Some (position_text (ids_of p)) };

    fn fmt<W: fmt::Write>(&self, f: &mut fmt::Formatter<W>) -> fmt::Result {
        let [first, rest @ ..] = self.identifiers() else {
            return Ok(());
        };
        write!(f, "{first}")?;
        for next in rest {
            write!(f, ",{next}")?;
        }
        Ok(())
    }
}
