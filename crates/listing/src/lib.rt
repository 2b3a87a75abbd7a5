// The listing of a sheet: its text, written into a lent buffer.
#![tactic(auto)]

ghost use Rattle.std.specs.Prelude.{◌≡◌, ◌≤◌, MatchResult};
ghost use Rattle.std.proofs.Math.Seq.{slice};
ghost use Rattle.text.specs.Text.{spaced, texts};
ghost use Rattle.text.specs.Output.{emit};
ghost use Rattle.layout.specs.Layout.{template};
ghost use Rattle.header.specs.Starts.{header_layout};
ghost use Rattle.header.specs.Step.{header_bytes};
ghost use Rattle.template.specs.Template.{TemplateBuilt};
ghost use Rattle.listing.specs.Listing.{field_text, slot_text, ranges_from, cond_text, listing, printed, Listed, InputListed};

use answer::Refusal;
use definition::Definition;
use number::Bits;
use octets::part;
use text::{put_byte, put_bytes, put_word};

// The lines of the first n fields.
fn put_fields(out: &mut [u8], to: Option<usize>, s: &[u8], n: usize) -> Option<usize>
    requires { n ≤ 64 }
    ensures { (out.new, result) ≡ emit (texts (field_text s.now) 0 n) (out.old, to) }
{
    let mut p = to;
    let mut start = Bits(0);
    for i in 0..n {
        let b = sheet::block(s, i);
        let f = field_blocks::resolved(b);
        p = lines::put_field(out, p, i, start, f, blocks::name(b));
        start = Bits(start.0 + f.width.0);
    }
    p
}

// The line of a length slot, or none.
fn put_slot(out: &mut [u8], to: Option<usize>, s: &[u8], slot: u8) -> Option<usize>
    ensures { (out.new, result) ≡ emit (slot_text s.now slot) (out.old, to) }
{
    let l = definition::unchecked_length_slot(s, slot);
    let name = blocks::name(sheet::block(s, l.at));
    lines::put_length(out, to, slot, name, l.largest, l.held)
}

// The ranges of the condition in block i.
fn put_ranges(out: &mut [u8], to: Option<usize>, s: &[u8], i: usize, n: u8) -> Option<usize>
    ensures { (out.new, result) ≡ emit (spaced (ranges_from s.now i 0 n)) (out.old, to) }
{
    let mut p = to;
    for j in 0..n {
        p = lines::put_range(out, p, cond::range_numbers(s, i, j));
    }
    p
}

// The line of the condition in block i.
fn put_cond(out: &mut [u8], to: Option<usize>, s: &[u8], i: usize) -> Option<usize>
    ensures { (out.new, result) ≡ emit (cond_text s.now i) (out.old, to) }
{
    let b = sheet::block(s, i);
    let p = put_bytes(out, to, b"cond");
    let p = put_word(out, p, blocks::name(b));
    let p = put_ranges(out, p, s, i, blocks::range_count(b));
    put_byte(out, p, b'\n')
}

// The lines of the conditions in the blocks from a up to, not including, e.
fn put_conds(out: &mut [u8], to: Option<usize>, s: &[u8], a: usize, e: usize) -> Option<usize>
    ensures { (out.new, result) ≡ emit (texts (cond_text s.now) a e) (out.old, to) }
{
    let mut p = to;
    for i in a..e {
        p = put_cond(out, p, s, i);
    }
    p
}

// All lines of a definition, whose template is at the front of `buf`.
fn put_listing(out: &mut [u8], d: &Definition<'_>, buf: &[u8]) -> Option<usize>
    requires { slice 0 (header_bytes d.now.sheet.now) buf.now ≡ template (header_layout d.now.sheet.now) }
    ensures { (out.new, result) ≡ emit (listing d.now.sheet.now) (out.old, Some 0) }
{
    let s = d.sheet;
    let len = d.header.len;
    let n = sheet::block_counts(s);
    let first = n.fields + n.lengths;
    let end = first + n.conds;
    let p = lines::put_header(out, Some(0), len);
    let p = put_fields(out, p, s, n.fields);
    let p = lines::put_template(out, p, part(buf, 0, len.0 as usize));
    let p = put_slot(out, p, s, 0);
    let p = put_slot(out, p, s, 1);
    let p = put_slot(out, p, s, 2);
    put_conds(out, p, s, first, end)
}

// The definition of a sheet, with its template at the front of a buffer; or the refusal.
fn define<'a>(s: &'a [u8], buf: &mut [u8]) -> Result<Definition<'a>, Refusal>
    ensures { MatchResult result (λ d. (d.sheet.now ≡ s.now) × TemplateBuilt s.now buf.old buf.new (Ok tt)) (λ r. TemplateBuilt s.now buf.old buf.new (Err r)) }
{
    let d = Definition::new(s)?;
    template::build(&d, buf)?;
    Ok(d)
}

// The listing, or the line of the refusal.
fn put_text(out: &mut [u8], s: &[u8]) -> Option<usize>
    ensures { (out.new, result) ≡ emit (printed s.now) (out.old, Some 0) }
{
    let mut buf = [0; 8192];
    match define(s, &mut buf) {
        Ok(d) => put_listing(out, &d, &buf),
        Err(reason) => lines::put_refusal(out, Some(0), reason),
    }
}

// The text of a sheet at the front of a buffer, as far as there is room: how many bytes of it are there.
pub fn list(s: &[u8], out: &mut [u8]) -> usize
    ensures { Listed s.now out.old out.new result }
{
    let to = put_text(out, s);
    text::filled(out, to)
}

// The whole text of an input at the front of `out`: how many bytes it has. `input` is what it was read into, and n how many bytes were read: one more than any
// sheet has shows that there is no sheet, whatever comes after.
pub fn list_input(input: &[u8; 50689], n: usize, out: &mut [u8; 40000]) -> usize
    ensures { InputListed input.now n out.old out.new result }
{
    list(part(input, 0, n), out)
}
