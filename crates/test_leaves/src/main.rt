// Runs the leaves on vectors worked out by hand or taken from the RFCs, on both sides of a line. Prints which parts were right and which were not.
// (Runs of bits have a program of their own.)
#![tactic(auto)]

use answer::{Group, NumberFault, OnPaper, PositionFault, Refusal, SheetFault};
use bits::{BitPos, RunFault};
use number::{Bits, Bytes};
use std::io;

fn refusals() -> bool {
    Refusal::Sheet(SheetFault::SlotGivenTwice, 98).on_paper()
        == OnPaper {
            group: Group::Sheet,
            number: 6,
            place: 98,
        }
}

// A byte past the end is 0, also at the largest offset.
fn reads() -> bool {
    let b = [1u8, 2, 3, 4, 5, 6, 7, 248, 249];
    (octets::be16(&b, 8) == 0xf900)
        & (octets::be32(&b, 5) == 0x0607f8f9)
        & (octets::be64(&b, 1) == 0x020304050607f8f9)
        & (octets::be64(&b, usize::MAX) == 0)
}

fn ranges() -> bool {
    let b = [0u8, 0, 1, 32, 33, 126, 127];
    octets::all_zero(&b, 0, 2)
        & !octets::all_zero(&b, 0, 3)
        & octets::all_name(&b, 4, 6)
        & !octets::all_name(&b, 3, 6)
        & !octets::all_name(&b, 4, 7)
        & octets::same_bytes(b"type", b"type")
        & !octets::same_bytes(b"type", b"types")
}

// Whether a block passes that holds the bytes of RFC 1071's example, zeros, and a check at its end.
fn passes(check: u16) -> bool {
    let example = [0x00u8, 0x01, 0xf2, 0x03, 0xf4, 0xf5, 0xf6, 0xf7];
    let mut b = [0u8; blocks::SIZE];
    let _ = bits::write_bytes(&mut b, Bytes(8), Bytes(0), &example);
    b[blocks::SIZE - 2] = (check / 256) as u8;
    b[blocks::SIZE - 1] = (check % 256) as u8;
    blocks::check::check_holds(&b)
}

// The sum of the example's words is ddf2, and 220d is what it lacks.
fn checks() -> bool {
    passes(0x220d)
        & !passes(0xddf2)
        & !passes(0x220e)
        & !blocks::check::check_holds(&[0u8; blocks::SIZE])
}

fn limits() -> bool {
    !Bits::new(33554424).over_max()
        & Bits::new(33554425).over_max()
        & !Bytes::new(4194303).over_max()
        & Bytes::new(4194304).over_max()
}

fn counts() -> bool {
    (Bytes(4194303).in_bits() == Some(Bits(33554424)))
        & (Bytes(2305843009213693952).in_bits() == None)
        & (Bits(23).whole_bytes() == Bytes(2))
        & Bits(24).is_whole_bytes()
        & !Bits(23).is_whole_bytes()
}

fn numbers() -> bool {
    let over = Err(Refusal::Number(NumberFault::OverAByte));
    (number::max_value(Bits(0)) == None)
        & (number::max_value(Bits(64)) == Some(u64::MAX))
        & (number::max_value(Bits(65)) == None)
        & (number::parse_to_byte_val(255) == Ok(255))
        & (number::parse_to_byte_val(256) == over)
}

// The last bit of a run, by its number.
fn end(start: u64, width: u64) -> Result<u64, Refusal> {
    let last = BitPos::new(Bits(start)).end_pos(Bits(width))?;
    Ok(last.to_global_pos().0)
}

fn ends() -> bool {
    let none = Err(Refusal::Position(PositionFault::RunHasNoEnd));
    (end(7, 57) == Ok(63))
        & (end(0, 0) == none)
        & (end(1, 0) == none)
        & (end(1, u64::MAX) == none)
        & (end(0, u64::MAX) == Ok(18446744073709551614))
}

// How many bytes a run touches: 64 bits off a byte boundary touch 9.
fn touched(start: u64, width: u64) -> u64 {
    BitPos::new(Bits(start)).touched(Bits(width)).0
}

fn widths() -> bool {
    (touched(7, 57) == 8) & (touched(7, 58) == 9) & (touched(1, 64) == 9)
}

// Two bytes written over five from byte `from` on, which have to lie in the first so many; and the five as one number.
fn copied(within: u64, from: u64) -> Result<u64, RunFault> {
    let mut b = [1u8, 2, 3, 4, 5];
    bits::write_bytes(&mut b, Bytes(within), Bytes(from), &[10, 11])?;
    Ok(octets::be64(&b, 0))
}

fn spans() -> bool {
    (copied(5, 0) == Ok(0x0a0b030405000000))
        & (copied(5, 3) == Ok(0x0102030a0b000000))
        & (copied(5, 4) == Err(RunFault::Outside))
        & (copied(5, u64::MAX) == Err(RunFault::Outside))
        & (copied(4, 3) == Err(RunFault::Outside))
        & (copied(6, 3) == Err(RunFault::Short))
}

fn main(rt: HostRuntime) -> io::Result<()> {
    let parts = [
        ("refusals", refusals()),
        ("reads", reads()),
        ("ranges", ranges()),
        ("blocks", checks()),
        ("limits", limits()),
        ("counts", counts()),
        ("numbers", numbers()),
        ("ends", ends()),
        ("widths", widths()),
        ("spans", spans()),
    ];
    for (part, ok) in parts {
        let word = if ok { "right" } else { "wrong" };
        println!(rt; "{part} {word}")?;
    }
    Ok(())
}
