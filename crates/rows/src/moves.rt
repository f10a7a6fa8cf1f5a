// Bytes put into a slice and taken out of it, with what stands behind them moved; bytes cleared, and
// whether they are clear. A move is by the distance that the caller gives, and not by the lesser of that and
// what there is: where it is a constant, as a row's width is, the compiler makes a memmove of `copy_within`.

ghost use Rattle.std.specs.Prelude.{◌≡◌, true, ◌++◌, ◌↔◌, ◌-◌, length, take, drop, replicate};
ghost use Rattle.rows.specs.Rows.{filled, put_in, take_out, AllZero};

// Puts bytes in at a place: what stood from there on moves up, and as many bytes fall off the end.
// A place behind the end changes nothing.
#[tactic(auto, using(crate::proofs::Bytes::put_within), unfolding(crate::specs::Rows::put_in))]
pub fn put_in(s: &mut [u8], at: usize, bytes: &[u8])
    ensures { s.new ≡ put_in at bytes.now s.old }
{
    if at <= s.len() {
        put_front(&mut s[at..], bytes);
    }
}

// Takes n bytes out at a place: what stood behind them moves down, and what is freed is zero.
// A place behind the end changes nothing.
#[tactic(auto, using(crate::proofs::Bytes::take_within), unfolding(crate::specs::Rows::take_out, crate::specs::Rows::filled))]
pub fn take_out(s: &mut [u8], at: usize, n: usize)
    ensures { s.new ≡ take_out at n s.old }
{
    if at <= s.len() {
        move_down(&mut s[at..], n);
    }
}

// Puts bytes in at the front.
fn put_front(s: &mut [u8], bytes: &[u8])
    ensures { s.new ≡ take (length s.old) (bytes.now ++ s.old) }
{
    move_up(s, bytes.len());
    copy_front(s, bytes);
}

// Moves every byte up by n places. The first n stay as they were, and so do all where there are fewer.
fn move_up(s: &mut [u8], n: usize)
    ensures { s.new ≡ take n s.old ++ take (length s.old - n) s.old }
{
    if let Some(kept) = s.len().checked_sub(n) {
        s.copy_within(..kept, n);
    }
}

// Moves every byte down by n places. What is freed at the end is zero.
#[tactic(auto, using(crate::proofs::Bytes::moved_down))]
fn move_down(s: &mut [u8], n: usize)
    ensures { s.new ≡ filled (length s.old) (drop n s.old) }
{
    if let Some(kept) = s.len().checked_sub(n) {
        s.copy_within(n.., 0);
        clear(&mut s[kept..]);
    } else {
        clear(s);
    }
}

// Sets every byte to zero.
pub fn clear(s: &mut [u8])
    ensures { s.new ≡ replicate (length s.old) 0 }
{
    s.fill(0);
}

// Whether all bytes are zero. They are or-ed together without an exit, and the compiler makes vectors of them.
pub fn all_zero(s: &[u8]) -> bool
    ensures { (result ≡ true) ↔ AllZero s.now }
{
    s.iter().fold(0, |faults, b| faults | *b) == 0
}

// Copies bytes over the front, as many as there is room for. What stands behind them stays.
pub fn copy_front(s: &mut [u8], bytes: &[u8])
    ensures { s.new ≡ take (length s.old) bytes.now ++ drop (length bytes.now) s.old }
{
    let n = s.len().min(bytes.len());
    s[..n].copy_from_slice(&bytes[..n]);
}
