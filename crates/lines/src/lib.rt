// The lines that the lister prints, each written into a lent buffer from what it tells.
#![tactic(auto)]

ghost use Rattle.std.specs.Prelude.{◌≡◌};
ghost use Rattle.text.specs.Text.{spaced};
ghost use Rattle.text.specs.Output.{emit};
ghost use Rattle.answer.specs.Paper.{group_of, number_of, place_of};
ghost use Rattle.expr.specs.Forms.{length_says};
ghost use Rattle.lines.specs.Lines.{group_name, refusal_line, header_line, field_line, hex_word, template_line, slot_name, number_word, undefined_line, worked_line, length_line, range_words};

use answer::{Group, Refusal};
use bits::BitPos;
use field::Field;
use number::{Bits, Bytes};
use slots::LengthField;
use text::{put_byte, put_bytes, put_hex, put_number, put_word};

// ---- words

fn group_word(group: Group) -> &'static [u8]
    ensures { result.now ≡ group_name group }
{
    match group {
        Group::Number => b"number",
        Group::Type => b"type",
        Group::Sheet => b"sheet",
        Group::Field => b"field",
        Group::Header => b"header",
        Group::Length => b"length",
        Group::Cond => b"cond",
        Group::Position => b"position",
        Group::Bound => b"bound",
        Group::Access => b"access",
        Group::Room => b"room",
    }
}

fn slot_word(slot: u8) -> &'static [u8]
    ensures { result.now ≡ slot_name slot }
{
    match slot {
        0 => b"header_len",
        1 => b"payload_len",
        _ => b"packet_len",
    }
}

// ---- lines

// `refused GROUP NUMBER PLACE`
pub fn put_refusal(out: &mut [u8], to: Option<usize>, reason: Refusal) -> Option<usize>
    ensures { (out.new, result) ≡ emit (refusal_line (group_of reason) (number_of reason) (place_of reason)) (out.old, to) }
{
    let paper = reason.on_paper();
    let p = put_bytes(out, to, b"refused");
    let p = put_word(out, p, group_word(paper.group));
    let p = put_number(out, p, paper.number as u64);
    let p = put_number(out, p, paper.place as u64);
    put_byte(out, p, b'\n')
}

// `header BYTES`
pub fn put_header(out: &mut [u8], to: Option<usize>, len: Bytes) -> Option<usize>
    ensures { (out.new, result) ≡ emit (header_line len.0) (out.old, to) }
{
    let p = put_bytes(out, to, b"header");
    let p = put_number(out, p, len.0);
    put_byte(out, p, b'\n')
}

// `field INDEX BYTE BIT WIDTH REPR GUARD NAME`
pub fn put_field(
    out: &mut [u8],
    to: Option<usize>,
    index: usize,
    start: Bits,
    f: Field,
    name: &[u8],
) -> Option<usize>
    ensures { (out.new, result) ≡ emit (field_line index start.0 f name.now) (out.old, to) }
{
    let at = BitPos::new(start);
    let p = put_bytes(out, to, b"field");
    let p = put_number(out, p, index as u64);
    let p = put_number(out, p, at.byte_pos().0);
    let p = put_number(out, p, at.bit_pos() as u64);
    let p = put_number(out, p, f.width.0);
    let p = put_word(out, p, f.repr.to_string());
    let p = put_number(out, p, u64::from(f.need_write_guard()));
    let p = put_word(out, p, name);
    put_byte(out, p, b'\n')
}

fn put_hex_word(out: &mut [u8], to: Option<usize>, bytes: &[u8]) -> Option<usize>
    ensures { (out.new, result) ≡ emit (spaced (hex_word bytes.now)) (out.old, to) }
{
    if bytes.is_empty() {
        return to;
    }
    let p = put_byte(out, to, b' ');
    put_hex(out, p, bytes)
}

// `template HEX`
pub fn put_template(out: &mut [u8], to: Option<usize>, bytes: &[u8]) -> Option<usize>
    ensures { (out.new, result) ≡ emit (template_line bytes.now) (out.old, to) }
{
    let p = put_bytes(out, to, b"template");
    let p = put_hex_word(out, p, bytes);
    put_byte(out, p, b'\n')
}

fn put_largest(out: &mut [u8], to: Option<usize>, largest: Option<Bytes>) -> Option<usize>
    ensures { (out.new, result) ≡ emit (spaced (number_word (length_says largest))) (out.old, to) }
{
    match largest {
        Some(n) => put_number(out, to, n.0),
        None => to,
    }
}

// `length SLOT undefined`
fn put_undefined(out: &mut [u8], to: Option<usize>, slot: u8) -> Option<usize>
    ensures { (out.new, result) ≡ emit (undefined_line slot) (out.old, to) }
{
    let p = put_bytes(out, to, b"length");
    let p = put_word(out, p, slot_word(slot));
    let p = put_word(out, p, b"undefined");
    put_byte(out, p, b'\n')
}

// `length SLOT NAME LARGEST`
fn put_worked(
    out: &mut [u8],
    to: Option<usize>,
    slot: u8,
    name: &[u8],
    largest: Option<Bytes>,
) -> Option<usize>
    ensures { (out.new, result) ≡ emit (worked_line slot name.now (length_says largest)) (out.old, to) }
{
    let p = put_bytes(out, to, b"length");
    let p = put_word(out, p, slot_word(slot));
    let p = put_word(out, p, name);
    let p = put_largest(out, p, largest);
    put_byte(out, p, b'\n')
}

// The line of a length slot, or none.
pub fn put_length(
    out: &mut [u8],
    to: Option<usize>,
    slot: u8,
    name: &[u8],
    largest: Option<Bytes>,
    held: LengthField,
) -> Option<usize>
    ensures { (out.new, result) ≡ emit (length_line slot name.now (length_says largest) held) (out.old, to) }
{
    match held {
        LengthField::Absent => to,
        LengthField::Undefined => put_undefined(out, to, slot),
        LengthField::Expr(_) => put_worked(out, to, slot, name, largest),
    }
}

// The first and the last number of a range, as words.
pub fn put_range(out: &mut [u8], to: Option<usize>, range: Option<(u64, u64)>) -> Option<usize>
    ensures { (out.new, result) ≡ emit (spaced (range_words range)) (out.old, to) }
{
    match range {
        Some((first, last)) => {
            let p = put_number(out, to, first);
            put_number(out, p, last)
        }
        None => to,
    }
}
