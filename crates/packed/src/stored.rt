// Answers as stored files have them: a refusal by its group, number and place in a byte each.
ghost use Rattle.std.specs.Prelude.{◌≡◌};
ghost use Rattle.packed.specs.Stored.{stored_refusal, stored_answer};

use answer::Refusal;
use octets::byte_at;

#[derive(Clone, Copy, Debug, PartialEq, Eq)]
pub struct Stored {
    pub group: u8,
    pub number: u8,
    pub place: usize,
}

impl From<Refusal> for Stored {
    ghost from_gives = { λ r s. s ≡ stored_refusal r };

    fn from(reason: Refusal) -> Stored {
        let paper = reason.on_paper();
        Stored {
            group: paper.group.number(),
            number: paper.number,
            place: paper.place,
        }
    }
}

// The answer that three bytes stand for: zeros for accepted.
pub fn answer_in(three: &[u8]) -> Result<(), Stored>
    ensures { result ≡ stored_answer three.now }
{
    match (byte_at(three, 0), byte_at(three, 1), byte_at(three, 2)) {
        (0, 0, 0) => Ok(()),
        (group, number, place) => Err(Stored {
            group,
            number,
            place: usize::from(place),
        }),
    }
}
