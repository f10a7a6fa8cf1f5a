// Bytes and numbers put into a lent buffer one behind the other, as many as there is room for.
ghost use Rattle.listed.specs.Steps.{Puts};
ghost use Rattle.listed.specs.Text.{decimal};

use rows::moves::copy_front;

// The lent buffer, and how many bytes have been put in: memory is fixed, so a length stands beside the buffer.
#[derive(Drop)]
pub struct Output<'a> {
    pub bytes: &'a mut [u8],
    pub length: usize,
}

impl Output<'_> {
    // Puts in bytes.
    pub fn put(&mut self, bytes: &[u8])
        ensures { Puts bytes.now self.old self.new }
    {
        let from = self.length.min(self.bytes.len());
        let room = self.bytes.len() - from;
        copy_front(&mut self.bytes[from..], bytes);
        self.length += bytes.len().min(room);
    }

    // Puts in a number, in decimal: its last digit behind those of a tenth of it, which the call on the tenth
    // puts in. No `Display`: the texts of rows are any bytes, so `put` stays, and a `fmt::Write` beside it would be a
    // second way in.
    pub fn number(&mut self, n: usize)
        ensures { Puts (decimal n) self.old self.new }
    {
        if 10 <= n {
            self.number(n / 10);
        }
        self.put(&[b'0' + (n % 10) as u8]);
    }
}
