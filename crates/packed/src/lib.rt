// What the programs that read stored files share: the tally of their answers, the status that they end with, answers as the files have them, numbers of two
// bytes, and packed texts. A packed text is runs of bytes, each after a gap. A run is 2 bytes for the gap, big-endian, which is how many zeros stand before it;
// 1 byte for its count; and as many bytes. A text is unpacked over zeros, whole or in pieces.
#![tactic(auto)]

mod ending;
mod stored;
mod tally;

ghost use Rattle.std.specs.Prelude.{◌≡◌, ◌+◌, ◌^◌, ◌<◌, ◌≤◌, length};
ghost use Rattle.octets.specs.Octets.{be};

pub use ending::status;
use octets::{be16, byte_at, part};
pub use stored::{Stored, answer_in};
pub use tally::Tally;

// A number of two bytes.
pub fn two(b: &[u8], at: usize) -> usize
    ensures { (result ≡ be b.now at 2) × (result ≤ 65535) }
{
    usize::from(be16(b, at))
}

// No text is longer unpacked.
const LONGEST: usize = 4294967296;

// Sets the bytes of a text from byte `at` on in a piece of it that begins at byte `first`, as far as the piece has them.
fn put(piece: &mut [u8], first: usize, at: usize, run: &[u8])
    requires { at + length run.now < 2 ^ 64 }
{
    for (i, b) in run.iter().enumerate() {
        let Some(k) = (at + i).checked_sub(first) else {
            continue;
        };
        if k < piece.len() {
            piece[k] = *b;
        }
    }
}

// Lays the runs of a packed text over a piece of the text that begins at byte `first`. Says where the last run ends by its count.
pub fn unpack(packed: &[u8], first: usize, piece: &mut [u8]) -> usize
    ensures { result < 2 ^ 33 }
{
    let mut left = packed;
    let mut to = 0;
    while !left.is_empty() && to <= LONGEST {
        to += two(left, 0);
        let count = usize::from(byte_at(left, 2));
        put(piece, first, to, part(left, 3, 3 + count));
        to += count;
        left = part(left, 3 + count, left.len());
    }
    to
}
