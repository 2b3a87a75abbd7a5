// Locators in six numbers, and back; and where the bytes at a locator stand.
ghost use Rattle.std.specs.Prelude.{◌≡◌, true, false, cond, eqb, length};
ghost use Rattle.answer.specs.Paper.{says};
ghost use Rattle.layout.specs.Access.{number as a_number};
ghost use Rattle.locator.specs.Locator.{held_default, reach_at, write_check_at, read_at, apply_at};
ghost use Rattle.abi.specs.Told.{zeros, Answered, Told, answer_in};
ghost use Rattle.abi.specs.Numbers.{held_number, locator_numbers, locator_with, locator_from, value_numbers, span_numbers};

use answer::Refusal;
use bits::{BitPos, Run};
use locator::{Held, Locator};
use number::{Bits, Bytes};

pub(crate) fn held_number(held: Held) -> u64
    ensures { result ≡ held_number held }
{
    match held {
        Held::Number(_, fixed) => fixed as u64,
        Held::Bytes => 2,
    }
}

// The default of a number; 0 for bytes.
pub(crate) fn default_in(held: Held) -> u64
    ensures { result ≡ held_default held }
{
    match held {
        Held::Number(default, _) => default,
        Held::Bytes => 0,
    }
}

// The six numbers of a locator.
pub(crate) fn locator_numbers(p: Locator) -> [u64; 6]
    ensures { result ≡ locator_numbers p }
{
    [
        p.index as u64,
        p.header.0,
        p.run.start.global.0,
        p.run.width.0,
        held_number(p.held),
        default_in(p.held),
    ]
}

fn locator_with(numbers: &[u64; 6], width: u64, held: Held) -> Locator
    ensures { result ≡ locator_with numbers.now width held }
{
    Locator {
        index: numbers[0] as usize,
        header: Bytes(numbers[1]),
        run: Run {
            start: BitPos::new(Bits(numbers[2])),
            width: Bits(width),
        },
        held,
    }
}

// The width of bytes; none where they are said to have a default.
fn bytes_width(width: u64, default: u64) -> u64
    ensures { result ≡ cond (eqb default 0) width 0 }
{
    if default == 0 { width } else { 0 }
}

// The locator of six numbers; where they stand for nothing held, one of no bits, which no field has.
#[tactic(auto, unfolding(crate::specs::Numbers::held_from))]
pub(crate) fn locator_from(numbers: &[u64; 6]) -> Locator
    ensures { result ≡ locator_from numbers.now }
{
    let width = numbers[3];
    let default = numbers[5];
    match numbers[4] {
        0 => locator_with(numbers, width, Held::Number(default, false)),
        1 => locator_with(numbers, width, Held::Number(default, true)),
        2 => locator_with(numbers, bytes_width(width, default), Held::Bytes),
        _ => locator_with(numbers, 0, Held::Bytes),
    }
}

// What the boundary's functions at a locator do, where it is not done at once; and for those by the sheet. Apart from them, so that what is done at once is compiled
// into them, and nothing of this is.

// The number that is held there, or access 1 to 3.
pub(crate) fn read_any(
    at: &[u64; 6],
    buf: &[u8],
    value: &mut [u64; 1],
    refusal: &mut [u64; 3],
) -> bool
    ensures { Told (zeros 1) value_numbers (read_at (locator_from at.now) buf.now false) value.new refusal.old refusal.new result }
{
    match locator_from(at).read_number(buf) {
        Ok(v) => super::told::tell(value, refusal, Ok([v])),
        Err(reason) => super::told::tell(value, refusal, Err(reason)),
    }
}

// Writes a number there, and changes no other bit; a refusal changes nothing.
pub(crate) fn write_any(at: &[u64; 6], buf: &mut [u8], value: u64, refusal: &mut [u64; 3]) -> bool
    ensures answered { Answered (write_check_at (locator_from at.now) (length buf.old) (a_number value)) refusal.old refusal.new result }
    ensures buf_after { buf.new ≡ apply_at (locator_from at.now) buf.old (a_number value) }
{
    let v = locator_from(at).write_number(buf, value);
    super::told::tell_verdict(refusal, v)
}

// Where in a buffer the bytes at a locator stand, or access 1 to 3.
pub(crate) fn span(p: Locator, buf: &[u8]) -> Result<[u64; 2], Refusal>
    ensures { says result ≡ answer_in (λ _. span_numbers p) (reach_at p (length buf.now) true) }
{
    p.can_read_bytes(buf)?;
    Ok([p.run.start.byte_pos().0, p.run.width.whole_bytes().0])
}
