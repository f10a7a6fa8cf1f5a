// Numbers in a layout, the high byte first (01, 'The record and the table'): one trait, for each type that is as
// wide as a number of the layouts. What they mean is one definition over the width, `num_at` and `bytes_of`. The
// bytes of a number go through the library's methods, and the machine reads and writes them as one word.
#![tactic(auto, using(crate::proofs::Bytes::puts), unfolding(crate::specs::Numbers::num_at, crate::specs::Numbers::bytes_of))]

ghost use Rattle.std.specs.Prelude.{◌≡◌, ℕ, ◌+◌, ◌≤◌, length};
ghost use Rattle.rows.specs.Numbers.{num_at, bytes_of};
ghost use Rattle.rows.specs.Rows.{written};

// A number that stands in a layout, as many bytes as its type has. A slice and a place in it are two parameters, as in
// the library's own methods.
pub trait Number: Copy {
    // how many bytes
    ghost width: { ℕ };

    // the number
    ghost value: { Self → ℕ };

    // The number at a place.
    fn read(s: &[u8], at: usize) -> Self
        requires { at + width ≤ length s.now }
        ensures { value result ≡ num_at width s.now at };

    // Writes the number over the bytes at a place.
    fn put(self, s: &mut [u8], at: usize)
        requires { at + width ≤ length s.old }
        ensures { s.new ≡ written at (bytes_of width (value self)) s.old };
}

impl Number for u8 {
    ghost width = { 1 };

    ghost value = { λ v. v };

    fn read(s: &[u8], at: usize) -> u8 {
        s[at]
    }

    fn put(self, s: &mut [u8], at: usize) {
        s[at] = self;
    }
}

impl Number for u16 {
    ghost width = { 2 };

    ghost value = { λ v. v };

    fn read(s: &[u8], at: usize) -> u16 {
        u16::from_be_bytes([s[at], s[at + 1]])
    }

    fn put(self, s: &mut [u8], at: usize) {
        s[at..at + 2].copy_from_slice(&self.to_be_bytes());
    }
}

impl Number for u32 {
    ghost width = { 4 };

    ghost value = { λ v. v };

    fn read(s: &[u8], at: usize) -> u32 {
        u32::from_be_bytes([s[at], s[at + 1], s[at + 2], s[at + 3]])
    }

    fn put(self, s: &mut [u8], at: usize) {
        s[at..at + 4].copy_from_slice(&self.to_be_bytes());
    }
}

impl Number for u64 {
    ghost width = { 8 };

    ghost value = { λ v. v };

    fn read(s: &[u8], at: usize) -> u64 {
        u64::from_be_bytes([
            s[at],
            s[at + 1],
            s[at + 2],
            s[at + 3],
            s[at + 4],
            s[at + 5],
            s[at + 6],
            s[at + 7],
        ])
    }

    fn put(self, s: &mut [u8], at: usize) {
        s[at..at + 8].copy_from_slice(&self.to_be_bytes());
    }
}
