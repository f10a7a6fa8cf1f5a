// A site by its number (01, 'Numbers that bound it': "Site: 1 to 16"). The type holds the range, so what takes a
// `Site` asks nothing of it.
ghost use Rattle.std.specs.Prelude.{◌≡◌, ◌≤◌, ◌<◌, ◌-◌};

#[derive(Clone, Copy, Debug, PartialEq, Eq)]
pub struct Site {
    pub number: u8,
    pub ghost in_range: { (1 ≤ number) × (number ≤ 16) },
}

// A number that is no site.
#[derive(Clone, Copy, Debug, PartialEq, Eq)]
pub struct NoSite;

// The number is taken whole: 272 is no site.
impl TryFrom<u32> for Site {
    ghost use Rattle.record.specs.Sites.{SiteOf};

    type Error = NoSite;

    ghost try_from_gives = { SiteOf };

    fn try_from(number: u32) -> Result<Site, NoSite> {
        match number {
            1..=16 => Ok(Site {
                number: number as u8,
            }),
            _ => Err(NoSite),
        }
    }
}

impl Site {
    // Where what is kept for each site has this one's.
    pub fn index(self) -> usize
        ensures at { result ≡ self.number - 1 }
        ensures inside { result < 16 }
    {
        usize::from(self.number) - 1
    }
}
