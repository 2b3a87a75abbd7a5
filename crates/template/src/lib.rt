// The template: the bytes that a header starts with, each field with its default. It goes into a lent buffer, from its first byte on.
#![tactic(auto)]

ghost use Rattle.std.specs.Prelude.{◌≡◌, ◌⊎◌, ◌+◌, ◌*◌, ◌≤◌, length};
ghost use Rattle.std.proofs.Math.Seq.{slice};
ghost use Rattle.bits.specs.Bits.{spelled};
ghost use Rattle.bits.specs.Writes.{put};
ghost use Rattle.sheet.specs.Blocks.{field_count};
ghost use Rattle.layout.specs.Layout.{Filled};
ghost use Rattle.header.specs.Starts.{default_number, header_layout, bits_of};
ghost use Rattle.template.specs.Template.{TemplateBuilt};
ghost use Rattle.template.specs.Working.{Fillable};

use answer::{Refusal, RoomFault};
use bits::{BitPos, Run};
use definition::Definition;
use field::{DefaultVal, Field, Span};
use number::{Bits, Bytes};
use octets::part;

// Fills a byte slice with the bytes of the span, or with zeros where none are stated.
fn fill_bytes(buf: &mut [u8], from: Bytes, count: Bytes, b: &[u8], span: Span)
    requires count_in_bounds { from.0 + count.0 ≤ length buf.old }
    requires len_in_bounds { span.at + span.len ≤ length b.now }
    requires fact { (span.len ≡ count.0) ⊎ (span.len ≡ 0) }
    ensures { buf.new ≡ put buf.old (8 * from.0) (8 * count.0) (spelled (slice span.at (span.at + span.len) b.now)) }
{
    let all = Bytes(buf.len() as u64);
    if span.len == 0 {
        let _ = bits::clear_bytes(buf, all, from, count);
    } else {
        let _ = bits::write_bytes(buf, all, from, part(b, span.at, span.at + span.len));
    }
}

// Fills a field with its default.
fn fill_field(buf: &mut [u8], b: &[u8], f: Field, start: Bits)
    requires { Fillable buf.old b.now f start.0 }
    ensures { buf.new ≡ put buf.old start.0 f.width.0 (default_number b.now f.default) }
{
    match f.default {
        DefaultVal::Num(n) => {
            let all = Bytes(buf.len() as u64);
            let run = Run {
                start: BitPos::new(start),
                width: f.width,
            };
            let _ = run.write_number(buf, all, n);
        }
        DefaultVal::Bool(_) => {} // no field has one
        DefaultVal::Bytes(span) => {
            fill_bytes(buf, start.whole_bytes(), f.width.whole_bytes(), b, span);
        }
    }
}

// Fills the header of a definition.
fn fill(d: &Definition<'_>, buf: &mut [u8])
    requires { bits_of d.now.sheet.now ≤ 8 * length buf.old }
    ensures { Filled (header_layout d.now.sheet.now) (field_count d.now.sheet.now) buf.old buf.new }
{
    let mut start = Bits(0);
    for i in 0..d.header.fields {
        let b = sheet::block(d.sheet, i);
        let f = field_blocks::resolved(b);
        fill_field(buf, b, f, start);
        start = Bits(start.0 + f.width.0);
    }
}

// Room 1, or the template of a definition in front of the buffer.
pub fn build(d: &Definition<'_>, buf: &mut [u8]) -> Result<(), Refusal>
    ensures { TemplateBuilt d.now.sheet.now buf.old buf.new result }
{
    if (buf.len() as u64) < d.header.len.0 {
        let place = sheet::block_count(d.sheet);
        return Err(Refusal::Room(RoomFault::BufferUnderHeader, place));
    }
    fill(d, buf);
    Ok(())
}

// Steps 1 to 5 and room 1; past them the buffer has the template in front.
pub fn build_header_template(s: &[u8], buf: &mut [u8]) -> Result<(), Refusal>
    ensures { TemplateBuilt s.now buf.old buf.new result }
{
    build(&Definition::new(s)?, buf)
}
