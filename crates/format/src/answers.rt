// The answers (01, 'Answer numbers'): what a call has done, or why it refuses. Every refusal returns with all as it
// was. 01's numbers are those of the variants; specs/Answers.antt says so to the promises.
ghost use Rattle.std.specs.Prelude.{◌≡◌};
ghost use Rattle.format.specs.Answers.{answer_number, refusal_number, success_number};

use record::site::NoSite;

// What a call has done.
#[derive(Clone, Copy, Debug, PartialEq, Eq)]
pub enum Success {
    // done
    Done = 0,

    // done: the struck line had gone before
    Gone = 15,
}

// Why a call refuses.
#[derive(Clone, Copy, Debug, PartialEq, Eq)]
pub enum Refusal {
    // record or table not sound, or wrong length
    Unsound = 1,

    // patch malformed
    Malformed = 2,

    // author is this site and the number is above its count
    OwnAhead = 3,

    // received already: number at most the author's count
    Received = 4,

    // early: some Before entry is above this replica's count
    Early = 5,

    // insert: a row has this position already
    PositionTaken = 6,

    // insert, own or received: 512 rows are in use
    Full = 7,

    // no such row
    NoRow = 8,

    // text over 48 bytes
    LongText = 9,

    // patch buffer under 161 bytes, whether or not the patch would fit
    ShortBuffer = 10,

    // own count is 1,000,000
    NumbersSpent = 11,

    // no place of at most 8 identifiers
    NoPlace = 12,

    // the place made is a row already
    PlaceTaken = 13,

    // site not 1 to 16
    NoSite = 14,
}

impl From<Success> for u32 {
    ghost from_gives = { λ done n. n ≡ success_number done };

    fn from(done: Success) -> u32 {
        done as u32
    }
}

impl From<Refusal> for u32 {
    ghost from_gives = { λ why n. n ≡ refusal_number why };

    fn from(why: Refusal) -> u32 {
        why as u32
    }
}

impl From<NoSite> for Refusal {
    ghost use Rattle.format.specs.declared.answers.Refusal.{Refusal};

    ghost from_gives = { λ _ why. why ≡ Refusal.NoSite };

    fn from(_no: NoSite) -> Refusal {
        Refusal::NoSite
    }
}

// The number of an answer, for those who are given numbers: a host in C, the listing.
pub fn number(answer: Result<Success, Refusal>) -> u32
    ensures { result ≡ answer_number answer }
{
    match answer {
        Ok(done) => u32::from(done),
        Err(why) => u32::from(why),
    }
}
