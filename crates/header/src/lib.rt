// Headers: the names of a sheet's fields, where each field starts, and step 3, as the Rust's `Header::new` has it.
// Nothing is kept beside the sheet but, within step 3, which keys of names were met: a name is looked up, and a start summed, by a walk over the F blocks.
#![tactic(auto)]

ghost use Rattle.std.specs.Prelude.{◌≡◌, false, ◌+◌, ◌-◌, ◌≤◌, ◌<◌, ◌^◌, length};
ghost use Rattle.answer.specs.Paper.{says};
ghost use Rattle.answer.specs.Walk.{is_some};
ghost use Rattle.octets.specs.Octets.{be, same};
ghost use Rattle.bits.specs.Positions.{global_of};
ghost use Rattle.blocks.specs.Layout.{name_of};
ghost use Rattle.field.specs.Sound.{width_of};
ghost use Rattle.field_blocks.specs.Step.{field_at};
ghost use Rattle.header.specs.Names.{named_among, field_named, is_reserved};
ghost use Rattle.header.specs.Starts.{start_at, start_of, field_start_says};
ghost use Rattle.header.specs.Step.{used_before, over_eight, off_boundary, too_long, header_fault, new_header};
ghost use Rattle.header.specs.Working.{key_of};

use answer::{HeaderFault, Refusal, refuse};
use bits::BitPos;
use blocks::name;
use number::{Bits, Bytes};
use octets::{be16, byte_at, same_bytes};
use types::BuiltinTypes;

// How many fields a header has, and how long it is.
#[derive(Clone, Copy, Debug, PartialEq, Eq)]
pub struct Header {
    pub fields: usize,
    pub len: Bytes,
}

// ---- names

fn has_name(b: &[u8], wanted: &[u8]) -> bool
    ensures { result ≡ same (name_of b.now) wanted.now }
{
    same_bytes(name(b), wanted)
}

// The first of the first n fields that has a name.
fn named_among(s: &[u8], wanted: &[u8], n: usize) -> Option<usize>
    ensures { result ≡ named_among s.now wanted.now n }
{
    (0..n).find(|i| has_name(sheet::block(s, *i), wanted))
}

// The field that a name means: the first that has it.
pub fn unchecked_field_named(s: &[u8], wanted: &[u8]) -> Option<usize>
    ensures { result ≡ field_named s.now wanted.now }
{
    named_among(s, wanted, sheet::block_counts(s).fields)
}

// The last two bytes of a name, as a number.
fn last_two(called: &[u8]) -> u16
    ensures { result ≡ be called.now (length called.now - 2) 2 }
{
    let n = called.len();
    if n < 2 {
        return be16(called, 0);
    }
    be16(called, n - 2)
}

// A number by which most names differ: their lengths, first and last bytes, mixed.
fn key(called: &[u8]) -> u8
    ensures { result ≡ key_of called.now }
{
    let n = (called.len() % 256) as u64;
    let first = byte_at(called, 0) as u64;
    let last = last_two(called) as u64;
    ((37 * n + 5 * first + last + last / 16) % 256) as u8
}

// Whether one of the first i fields has the name. No field is asked where its key was not met before.
fn used_before(s: &[u8], wanted: &[u8], i: usize, met: bool) -> bool
    requires { met ≡ false → is_some (named_among s.now wanted.now i) ≡ false }
    ensures { result ≡ is_some (named_among s.now wanted.now i) }
{
    met && named_among(s, wanted, i).is_some()
}

fn is_reserved(wanted: &[u8]) -> bool
    ensures { result ≡ is_reserved wanted.now }
{
    same_bytes(wanted, b"type")
}

// ---- positions

// The bits of the first n fields together.
fn bits_before(s: &[u8], n: usize) -> Bits
    requires { n ≤ 64 }
    ensures { result.0 ≡ start_at s.now n }
{
    let mut sum: u64 = 0;
    for i in 0..n {
        sum += field_blocks::bits_in(sheet::block(s, i)).0;
    }
    Bits(sum)
}

// Where field i starts, if there is such a field.
pub fn unchecked_start(s: &[u8], i: usize) -> Option<BitPos>
    ensures { field_start_says result ≡ start_of s.now i }
{
    if (i < 64) & (i < sheet::block_counts(s).fields) {
        return Some(BitPos::new(bits_before(s, i)));
    }
    None
}

// ---- header 1 to 5, a test each

// Header 3: narrow enough for a number, but spread over more than 8 bytes.
fn over_eight(start: BitPos, width: Bits) -> bool
    ensures { result ≡ over_eight (global_of start) width.0 }
{
    (width.0 <= 64) & (8 < start.touched(width).0)
}

// Header 4: a byte slice off a byte boundary.
fn off_boundary(start: BitPos, repr: BuiltinTypes) -> bool
    ensures { result ≡ off_boundary (global_of start) repr }
{
    repr.is_slice() & (start.bit_pos() != 0)
}

// Header 5: longer than a header may be; a byte that is not full is not counted.
fn too_long(bits: Bits) -> bool
    ensures { result ≡ too_long bits.0 }
{
    bits.whole_bytes().over_max()
}

// Header 1 to 5 of field i: by whether its name was used before, where it starts, how wide it is and how it is held.
#[tactic(auto, unfolding(crate::specs::Step::header_fault))]
fn field_fault(
    s: &[u8],
    i: usize,
    used: bool,
    start: Bits,
    width: Bits,
    repr: BuiltinTypes,
) -> Result<(), Refusal>
    requires used_value { used ≡ used_before s.now i }
    requires start_value { start.0 ≡ start_at s.now i }
    requires width_value { width.0 ≡ width_of (field_at s.now i) }
    requires repr_value { repr ≡ (field_at s.now i).repr }
    requires width_bound { start.0 + width.0 < 2 ^ 64 }
    ensures { says result ≡ header_fault s.now i }
{
    let at = BitPos::new(start);
    let reserved = is_reserved(name(sheet::block(s, i)));
    let end = Bits(start.0 + width.0);
    refuse(used, Refusal::Header(HeaderFault::NameUsedBefore, i))?;
    refuse(reserved, Refusal::Header(HeaderFault::NameReserved, i))?;
    refuse(
        over_eight(at, width),
        Refusal::Header(HeaderFault::TouchesOverEightBytes, i),
    )?;
    refuse(
        off_boundary(at, repr),
        Refusal::Header(HeaderFault::SliceOffByteBoundary, i),
    )?;
    refuse(
        too_long(end),
        Refusal::Header(HeaderFault::HeaderTooLong, i),
    )
}

impl Header {
    // Step 3: the header of a sheet's fields, or the refusal.
    pub fn new(s: &[u8]) -> Result<Header, Refusal>
        ensures { says result ≡ new_header s.now }
    {
        let n = sheet::block_counts(s).fields;
        let mut keys = [false; 256];
        let mut bits = Bits(0);
        for i in 0..n {
            let b = sheet::block(s, i);
            let called = name(b);
            let k = key(called) as usize;
            let width = field_blocks::bits_in(b);
            let repr = field_blocks::repr_of(b);
            let used = used_before(s, called, i, keys[k]);
            field_fault(s, i, used, bits, width, repr)?;
            keys[k] = true;
            bits = Bits(bits.0 + width.0);
        }
        let place = sheet::block_count(s);
        refuse(
            !bits.is_whole_bytes(),
            Refusal::Header(HeaderFault::HeaderNotWholeBytes, place),
        )?;
        Ok(Header {
            fields: n,
            len: bits.whole_bytes(),
        })
    }
}
