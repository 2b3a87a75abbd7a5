// Text in a lent buffer: each function writes a text from a cursor on and answers the cursor after it, the index of the next byte. Where the buffer ends first,
// it holds the beginning of the text, and there is no cursor any more: the buffer is full, and nothing is written there. So a writer never fails, and its calls
// need no tests between them. (Buffer and cursor are no struct: it would hold the buffer by `&mut`, and every writer would have to promise besides its text that
// it still holds the same buffer. Nor is it `Display` or `fmt::Write`: what does not fit is dropped here, and what stands in the buffer
// afterwards is one equation.)
#![tactic(auto)]

ghost use Rattle.std.specs.Prelude.{◌≡◌, [], ◌∷◌, ◌≤◌, ◌<◌, length, drop};
ghost use Rattle.text.specs.Text.{decimal, hex_digit, hex};
ghost use Rattle.text.specs.Output.{emit, FilledFront};

// Bytes as they are, one by one: most texts are short, and `copy_from_slice` was slower on them.
pub fn put_bytes(out: &mut [u8], to: Option<usize>, s: &[u8]) -> Option<usize>
    ensures { (out.new, result) ≡ emit s.now (out.old, to) }
{
    let mut at = to?;
    for b in s {
        if out.len() <= at {
            return None;
        }
        out[at] = *b;
        at += 1;
    }
    Some(at)
}

// One byte.
pub fn put_byte(out: &mut [u8], to: Option<usize>, b: u8) -> Option<usize>
    ensures { (out.new, result) ≡ emit (b ∷ []) (out.old, to) }
{
    put_bytes(out, to, &[b])
}

fn hex_digit(d: u8) -> u8
    requires { d < 16 }
    ensures { result ≡ hex_digit d }
{
    if d < 10 { 48 + d } else { 87 + d }
}

// Bytes in hex, two digits each.
pub fn put_hex(out: &mut [u8], to: Option<usize>, s: &[u8]) -> Option<usize>
    ensures { (out.new, result) ≡ emit (hex s.now) (out.old, to) }
{
    let mut p = to;
    for b in s {
        p = put_bytes(out, p, &[hex_digit(b / 16), hex_digit(b % 16)]);
    }
    p
}

// The digits of a number, at the end of the array, which has room for all: the answer is the first one's index.
fn digits_of(d: &mut [u8; 20], n: u64) -> usize
    ensures { (result ≤ 20) × (drop result d.new ≡ decimal n) }
{
    let mut left = n;
    for i in (0..20).rev() {
        d[i] = b'0' + (left % 10) as u8;
        left /= 10;
        if left == 0 {
            return i;
        }
    }
    0
}

// A number in decimal.
pub fn put_decimal(out: &mut [u8], to: Option<usize>, n: u64) -> Option<usize>
    ensures { (out.new, result) ≡ emit (decimal n) (out.old, to) }
{
    let mut d = [0; 20];
    let i = digits_of(&mut d, n);
    put_bytes(out, to, &d[i..])
}

// A further word of a line: a space, and the word.
pub fn put_word(out: &mut [u8], to: Option<usize>, s: &[u8]) -> Option<usize>
    ensures { (out.new, result) ≡ emit (32 ∷ s.now) (out.old, to) }
{
    let p = put_byte(out, to, b' ');
    put_bytes(out, p, s)
}

// A number as a further word.
pub fn put_number(out: &mut [u8], to: Option<usize>, n: u64) -> Option<usize>
    ensures { (out.new, result) ≡ emit (32 ∷ decimal n) (out.old, to) }
{
    let p = put_byte(out, to, b' ');
    put_decimal(out, p, n)
}

// How many bytes of the buffer a text from its start on has filled.
pub fn filled(out: &[u8], to: Option<usize>) -> usize
    ensures { FilledFront out.now to result }
{
    match to {
        Some(at) => at.min(out.len()),
        None => out.len(),
    }
}
