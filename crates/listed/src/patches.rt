// Where the patches of an input end (01, 'Listing program').
ghost use Rattle.std.specs.Prelude.{◌≡◌, length};
ghost use Rattle.std.specs.Iterator.{YieldsFirstRef, item_count};
ghost use Rattle.listed.specs.Listing.{first_in};
ghost use Rattle.listed.specs.Steps.{patches_left};

use reader::read_first;

// The patches of an input, one behind the other. Bytes that begin with none are the last of them, which is
// answered as malformed.
#[derive(Drop)]
pub struct Patches<'a>(pub &'a [u8]);

impl<'a> Iterator for Patches<'a> {
    type Item = &'a [u8];

    ghost next_gives = { YieldsFirstRef patches_left };

    ghost remaining = { item_count patches_left };

    fn next(&mut self) -> Option<&'a [u8]> {
        if self.0.is_empty() {
            return None;
        }
        let (patch, rest) = self.0.split_at(first_in(self.0));
        self.0 = rest;
        Some(patch)
    }
}

// How many bytes the first patch takes; all, where they begin with none.
fn first_in(bytes: &[u8]) -> usize
    ensures { result ≡ length (first_in bytes.now) }
{
    read_first(bytes).map_or(bytes.len(), |first| first.used)
}
