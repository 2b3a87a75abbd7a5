// Reading and writing the fields of a header by its sheet: the sheet's own refusal comes first, then access 1 to 5. Each entry works the field's
// locator out of the sheet and goes there; a caller with many buffers keeps the locator.
#![tactic(auto)]

ghost use Rattle.std.specs.Prelude.{◌≡◌, true, false, length};
ghost use Rattle.answer.specs.Paper.{says};
ghost use Rattle.types.specs.Types.{is_slice};
ghost use Rattle.layout.specs.Access.{number as a_number, bytes as some_bytes, write};
ghost use Rattle.locator.specs.Locator.{number_answer_says, part_of};
ghost use Rattle.access.specs.Access.{sheet_reach, sheet_read, SheetWritten, default_or_zero, held_of, locator_for, locator_in};

use answer::{AccessFault, Refusal};
use bits::{BitPos, Run};
use definition::Definition;
use field::{DefaultVal, Field};
use locator::{Held, Locator};
use number::Bytes;

// ---- the locator of a field

// The default of a number field.
fn default_or_zero(default: DefaultVal) -> u64
    ensures { result ≡ default_or_zero default }
{
    match default {
        DefaultVal::Num(n) => n,
        DefaultVal::Bool(_) | DefaultVal::Bytes(_) => 0, // no number field has one
    }
}

fn held_of(f: Field) -> Held
    ensures { result ≡ held_of (is_slice f.repr) f }
{
    if f.repr.is_slice() {
        return Held::Bytes;
    }
    Held::Number(default_or_zero(f.default), f.fixed)
}

// The locator of field i, whose record this is, in a header of so many bytes.
pub fn locator_for(i: usize, header: Bytes, start: BitPos, f: Field) -> Locator
    ensures { result ≡ locator_for i header start f }
{
    Locator {
        index: i,
        header,
        run: Run {
            start,
            width: f.width,
        },
        held: held_of(f),
    }
}

// The locator of field i of an accepted sheet, or access 1.
fn locator_of(d: &Definition<'_>, i: usize) -> Result<Locator, Refusal>
    ensures { says result ≡ locator_in d.now.sheet.now i }
{
    let found = definition::unchecked_field(d.sheet, i);
    let (f, start) = found.ok_or(Refusal::Access(AccessFault::NoSuchField, i))?;
    Ok(locator_for(i, d.header.len, start, f))
}

// The locator of field i, the sheet's own refusal, or access 1.
pub fn locate(s: &[u8], i: usize) -> Result<Locator, Refusal>
    ensures { says result ≡ locator_in s.now i }
{
    locator_of(&Definition::new(s)?, i)
}

// ---- reads

// The number that field i holds, or the refusal.
pub fn read_number(s: &[u8], buf: &[u8], i: usize) -> Result<u64, Refusal>
    ensures { number_answer_says result ≡ sheet_read s.now buf.now false i }
{
    locate(s, i)?.read_number(buf)
}

// The bytes that field i holds, a part of the buffer; an empty part where they cannot be read.
pub fn read_bytes<'a>(s: &[u8], buf: &'a [u8], i: usize) -> &'a [u8]
    ensures { result.now ≡ part_of (sheet_read s.now buf.now true i) }
{
    match locate(s, i) {
        Ok(p) => p.read_bytes(buf),
        Err(_) => &buf[..0],
    }
}

// Whether field i can be read as bytes, or the refusal.
pub fn can_read_bytes(s: &[u8], buf: &[u8], i: usize) -> Result<(), Refusal>
    ensures { says result ≡ sheet_reach s.now (length buf.now) true i }
{
    locate(s, i)?.can_read_bytes(buf)
}

// ---- writes

// Writes a number to field i, and changes no other bit; or the refusal, and nothing is changed.
pub fn write_number(s: &[u8], buf: &mut [u8], i: usize, v: u64) -> Result<(), Refusal>
    ensures { SheetWritten s.now buf.old buf.new (write i (a_number v)) result }
{
    locate(s, i)?.write_number(buf, v)
}

// Writes bytes to field i, and changes no other bit; or the refusal, and nothing is changed.
pub fn write_bytes(s: &[u8], buf: &mut [u8], i: usize, bytes: &[u8]) -> Result<(), Refusal>
    ensures { SheetWritten s.now buf.old buf.new (write i (some_bytes bytes.now)) result }
{
    locate(s, i)?.write_bytes(buf, bytes)
}
