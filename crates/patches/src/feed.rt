// What the cases are written in: bytes in capital hexadecimal.
ghost use Rattle.std.specs.Prelude.{◌≡◌, ◌≤◌, ◌/◌, length, take, min};

// The bytes that two digits each stand for, as many as there is room for. Memory is fixed, so their number stands
// beside the buffer.
pub fn from_hex(digits: &[u8], bytes: &mut [u8]) -> usize
    ensures inside { (result ≤ length bytes.new) × (result ≡ length (take result bytes.new)) }
    ensures count { result ≡ min (length bytes.new) (length digits.now / 2) }
{
    let (pairs, _) = digits.as_chunks::<2>();
    for (byte, [high, low]) in bytes.iter_mut().zip(pairs) {
        *byte = digit(*high) * 16 + digit(*low);
    }
    bytes.len().min(pairs.len())
}

// The number of a hexadecimal digit; 0 for anything else.
fn digit(c: u8) -> u8
    ensures { result ≤ 15 }
{
    match c {
        b'0'..=b'9' => c - b'0',
        b'A'..=b'F' => c - b'A' + 10,
        _ => 0,
    }
}
