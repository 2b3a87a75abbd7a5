// The check of a block, by the ones' complement sum of RFC 1071. The words are added up plainly, and the carries folded in once.
ghost use Rattle.std.specs.Prelude.{◌≡◌, length};
ghost use Rattle.blocks.specs.Layout.{block_size};
ghost use Rattle.blocks.specs.Ones.{words, ones_sum};
ghost use Rattle.blocks.specs.Check.{check_holds};
ghost use Rattle.blocks.specs.Working.{swapped, folded};

use super::SIZE;

// The words of a block, added up two at a time and with their bytes exchanged: compiled, plain loads. By the RFC the sum has its bytes exchanged then.
fn total(b: &[u8]) -> u64
    requires { length b.now ≡ block_size }
    ensures { folded result ≡ swapped (ones_sum (words b.now)) }
{
    let (fours, _) = b.as_chunks();
    let mut sum = 0;
    for four in fours {
        sum += u64::from(u32::from_le_bytes(*four));
    }
    sum
}

// What passes 16 bits added in at the low end, until nothing passes.
fn fold(t: u64) -> u16
    ensures { result ≡ folded t }
{
    if t == 0 {
        return 0;
    }
    ((t - 1) % 65535 + 1) as u16
}

// Whether the bytes are a block whose words' sum is 65,535.
pub fn check_holds(b: &[u8]) -> bool
    ensures { result ≡ check_holds b.now }
{
    b.len() == SIZE && fold(total(b)) == 65535
}
