// The record of one replica: the own site, the rows in use, and for each of the 16 sites a count (01, 'The
// record and the table'); its 67 bytes across the C boundary, read and written; and whether counts are in
// range.
//
// Rests on `rows` for numbers in bytes, and on `position` for a law by which facts are decided. What the bytes
// mean and when a record is sound by itself is specs/Records.antt; that reading and writing undo each other is
// proofs/RecordBack.antt.
#![tactic(auto)]

ghost use Rattle.std.specs.Prelude.{◌≡◌, true, ◌↔◌, ◌≤◌, length};
ghost use Rattle.rows.specs.Rows.{flat, written};
ghost use Rattle.rows.specs.Numbers.{bytes_of};
ghost use Rattle.record.specs.Records.{count_of, CountsFit, record_size, counts_size, counts_of, record_read, record_written};

use rows::numbers::Number;

pub mod site;

use site::Site;

// 01's 'Numbers that bound it' and 'The record and the table': the record's bytes are 67 and those of its
// counts 64, there are 16 sites, and patch numbers and counts end at 1,000,000.
pub const RECORD: usize = 67;

pub const COUNTS: usize = 64;

pub const SITES: usize = 16;

pub const LAST_NUMBER: u32 = 1_000_000;

// "The record holds the own site, the number of rows, and for each of the 16 sites a count". The default is the
// record of no host, site 0, which is never sound.
#[derive(Clone, Copy, Debug, Default, PartialEq, Eq)]
pub struct Replica {
    pub site: u8,
    pub rows: u16,
    pub counts: [u32; SITES],
}

// Reads the record of 67 bytes. Bytes of any other length give the record of no host.
#[tactic(auto, using(crate::proofs::Parts::parts_read, crate::proofs::Parts::none_read))]
pub fn read(s: &[u8]) -> Replica
    ensures { result ≡ record_read s.now }
{
    if s.len() == RECORD {
        Replica {
            site: u8::read(s, 0),
            rows: u16::read(s, 1),
            counts: read_counts(&s[3..]),
        }
    } else {
        Replica::default()
    }
}

// Writes the record over 67 bytes. A slice of any other length stays as it was.
#[tactic(auto, using(crate::proofs::Parts::parts_written), unfolding(crate::specs::Records::record_written))]
pub fn write(r: Replica, s: &mut [u8])
    ensures { s.new ≡ record_written r s.old }
{
    if s.len() == RECORD {
        r.site.put(s, 0);
        r.rows.put(s, 1);
        write_counts(r.counts, s);
    }
}

// Reads the sixteen counts at the front.
pub fn read_counts(s: &[u8]) -> [u32; SITES]
    requires { counts_size ≤ length s.now }
    ensures { result ≡ counts_of s.now }
{
    std::array::from_fn(|i| u32::read(s, 4 * i))
}

#[tactic(auto, using(crate::proofs::Counts::none_written, crate::proofs::Counts::next_written))]
fn write_counts(counts: [u32; SITES], s: &mut [u8])
    requires { length s.old ≡ record_size }
    ensures { s.new ≡ written 3 (flat (bytes_of 4) counts) s.old }
{
    for (i, count) in counts.iter().enumerate() {
        count.put(s, 3 + 4 * i);
    }
}

// The count of a site: that of site 1 stands first.
pub fn count_of(counts: [u32; SITES], site: Site) -> u32
    ensures { result ≡ count_of counts site.number }
{
    counts[site.index()]
}

// Whether every count is in range.
pub fn counts_fit(counts: [u32; SITES]) -> bool
    ensures { (result ≡ true) ↔ CountsFit counts }
{
    counts.iter().all(|count| *count <= LAST_NUMBER)
}
