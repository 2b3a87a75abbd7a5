// The records of fields, fourteen numbers each.
ghost use Rattle.std.specs.Prelude.{◌≡◌, ◌<◌};
ghost use Rattle.answer.specs.Paper.{says};
ghost use Rattle.header.specs.Starts.{start_at};
ghost use Rattle.access.specs.Access.{locator_of, locator_in};
ghost use Rattle.abi.specs.Told.{answer_in};
ghost use Rattle.abi.specs.Numbers.{default_count, default_begins, record_numbers, field_numbers, field_rows, index_named};

use answer::Refusal;
use bits::BitPos;
use definition::Definition;
use field::{DefaultVal, Field};
use locator::Locator;
use number::Bits;

// How many bytes a default states.
fn default_count(default: DefaultVal) -> usize
    ensures { result ≡ default_count default }
{
    match default {
        DefaultVal::Num(_) | DefaultVal::Bool(_) => 0,
        DefaultVal::Bytes(span) => span.len,
    }
}

// Where in the sheet they begin, in block i; 0 where there are none.
fn default_begins(i: usize, count: usize) -> usize
    requires { i < 64 }
    ensures { result ≡ default_begins i count }
{
    if count == 0 {
        return 0;
    }
    blocks::SIZE * i + blocks::BYTES
}

// Of the field with this locator and this record, whose name has so many bytes.
#[tactic(auto, unfolding(crate::specs::Numbers::record_numbers))]
fn record_numbers(p: Locator, f: Field, name: usize) -> [u64; 14]
    requires { p.index < 64 }
    ensures { result ≡ record_numbers p f name }
{
    let i = p.index;
    let count = default_count(f.default);
    [
        i as u64,
        p.header.0,
        p.run.start.global.0,
        p.run.width.0,
        super::locators::held_number(p.held),
        super::locators::default_in(p.held),
        f.repr.code() as u64,
        f.arg.code() as u64,
        f.generate as u64,
        f.need_write_guard() as u64,
        (blocks::SIZE * i + blocks::NAME) as u64,
        name as u64,
        default_begins(i, count) as u64,
        count as u64,
    ]
}

// Of a sheet's field, by its locator.
fn field_record(s: &[u8], p: Locator) -> [u64; 14]
    requires { p.index < 64 }
    ensures { result ≡ field_numbers s.now p }
{
    let b = sheet::block(s, p.index);
    record_numbers(p, field_blocks::resolved(b), blocks::name(b).len())
}

// Of field i, or access 1.
pub(crate) fn record_by_index(s: &[u8], i: usize) -> Result<[u64; 14], Refusal>
    ensures { says result ≡ answer_in (field_numbers s.now) (locator_in s.now i) }
{
    let p = access::locate(s, i)?;
    Ok(field_record(s, p))
}

// Of field i of a definition, by where it starts.
fn record_at(d: &Definition<'_>, i: usize, start: Bits) -> [u64; 14]
    requires i_bound { i < 64 }
    requires start_value { start.0 ≡ start_at d.now.sheet.now i }
    ensures { result ≡ field_numbers d.now.sheet.now (locator_of d.now.sheet.now i) }
{
    let b = sheet::block(d.sheet, i);
    let f = field_blocks::resolved(b);
    let p = access::locator_for(i, d.header.len, BitPos::new(start), f);
    record_numbers(p, f, blocks::name(b).len())
}

// Of all fields of a definition.
pub(crate) fn tell_fields(d: &Definition<'_>, fields: &mut [[u64; 14]; 64])
    ensures { fields.new ≡ field_rows d.now.sheet.now }
{
    *fields = [[0; 14]; 64];
    let mut start = Bits(0);
    for i in 0..d.header.fields {
        fields[i] = record_at(d, i, start);
        start = Bits(start.0 + field_blocks::bits_in(sheet::block(d.sheet, i)).0);
    }
}

// The index of the field with a name; where there is none, the first that no field has.
pub(crate) fn index_named(s: &[u8], name: &[u8]) -> usize
    ensures { result ≡ index_named s.now name.now }
{
    header::unchecked_field_named(s, name).unwrap_or_else(|| sheet::block_counts(s).fields)
}
