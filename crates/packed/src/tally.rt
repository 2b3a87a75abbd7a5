// How many answers were right and how many were not, and which one was the first that was not.
ghost use Rattle.std.specs.Prelude.{◌≡◌};
ghost use Rattle.text.specs.Output.{emit};
ghost use Rattle.packed.specs.Counted.{counted, counts_text, first_text, tally_text};

use text::{put_bytes, put_decimal};

#[derive(Clone, Copy, Debug, PartialEq, Eq)]
pub struct Tally {
    right: u64,
    wrong: u64,
    first: u64,
}

impl Tally {
    pub const NONE: Tally = Tally {
        right: 0,
        wrong: 0,
        first: 0,
    };

    // With one answer more. (No file has 2^64 of them.) All before the first wrong one are right, so that their count is its number.
    pub fn with(self, right: bool) -> Tally
        ensures { result ≡ counted self right }
    {
        if right {
            return Tally {
                right: self.right.wrapping_add(1),
                ..self
            };
        }
        Tally {
            wrong: self.wrong.wrapping_add(1),
            first: if self.wrong == 0 {
                self.right
            } else {
                self.first
            },
            ..self
        }
    }

    fn put_counts(self, out: &mut [u8], to: Option<usize>) -> Option<usize>
        ensures { (out.new, result) ≡ emit (counts_text self) (out.old, to) }
    {
        let p = put_decimal(out, to, self.right);
        let p = put_bytes(out, p, b" right, ");
        let p = put_decimal(out, p, self.wrong);
        put_bytes(out, p, b" wrong\n")
    }

    fn put_first(self, out: &mut [u8], to: Option<usize>) -> Option<usize>
        ensures { (out.new, result) ≡ emit (first_text self) (out.old, to) }
    {
        let p = put_decimal(out, to, self.first);
        put_bytes(out, p, b" is the first that is wrong\n")
    }

    // A line, with a title in front; and where something is wrong, one more that names the first such answer by its number, counted from 0.
    pub fn put(self, out: &mut [u8], to: Option<usize>, title: &[u8]) -> Option<usize>
        ensures { (out.new, result) ≡ emit (tally_text title.now self) (out.old, to) }
    {
        let p = put_bytes(out, to, title);
        let p = self.put_counts(out, p);
        if self.wrong == 0 {
            return p;
        }
        self.put_first(out, p)
    }
}
