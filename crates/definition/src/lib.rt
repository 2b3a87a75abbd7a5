// Definitions: the verdict on any bytes as a sheet, steps 1 to 5 in order, and what an accepted sheet says, by index.
#![tactic(auto)]

ghost use Rattle.std.specs.Prelude.{◌≡◌, MatchResult};
ghost use Rattle.answer.specs.Paper.{gives, refusal_says, says};
ghost use Rattle.header.specs.Step.{header_of};
ghost use Rattle.definition.specs.Definition.{Accepted, definition_check, defined_header};
ghost use Rattle.definition.specs.Unchecked.{field_with_start, LengthSlotOf, entry_block, cond_entry, cond_range, field_with_start_says};

use answer::Refusal;
use bits::BitPos;
use blocks::name;
use field::Field;
use header::Header;
use number::Bytes;
use slots::LengthField;

// What a length slot holds, the block that gives it (0 stands for none), and the length of its field's largest value.
#[derive(Clone, Copy, Debug, PartialEq, Eq)]
pub struct LengthSlot {
    pub held: LengthField,
    pub at: usize,
    pub largest: Option<Bytes>,
}

// An entry of the conditions: its block, the field that it names, and how many ranges it has.
#[derive(Clone, Copy, Debug, PartialEq, Eq)]
pub struct CondEntry {
    pub block: usize,
    pub field: usize,
    pub ranges: u8,
}

// ---- the verdict

// An accepted sheet, with its header.
#[derive(Clone, Copy)]
pub struct Definition<'a> {
    pub sheet: &'a [u8],
    pub header: Header,
    ghost accepted: { Accepted sheet.now },
    ghost header_is: { header ≡ header_of sheet.now },
}

impl<'a> Definition<'a> {
    // Steps 1 to 5 of a sheet: it is accepted, or the refusal.
    #[tactic(auto, unfolding(crate::specs::Definition::definition_check))]
    pub fn new(sheet: &'a [u8]) -> Result<Definition<'a>, Refusal>
        ensures { MatchResult result (λ d. (d.sheet.now ≡ sheet.now) × (gives d.header ≡ defined_header sheet.now)) (λ r. refusal_says r ≡ defined_header sheet.now) }
    {
        sheet::check(sheet)?;
        field_blocks::check(sheet)?;
        let header = Header::new(sheet)?;
        length::check(sheet, header)?;
        cond::check(sheet)?;
        Ok(Definition { sheet, header })
    }
}

// Steps 1 to 5: how many fields the header of an accepted sheet has, and how many bytes; or the refusal.
pub fn checked_header(s: &[u8]) -> Result<Header, Refusal>
    ensures { says result ≡ defined_header s.now }
{
    Ok(Definition::new(s)?.header)
}

// Steps 1 to 5: the verdict.
pub fn check(s: &[u8]) -> Result<(), Refusal>
    ensures { says result ≡ definition_check s.now }
{
    Definition::new(s)?;
    Ok(())
}

// ---- what a sheet says

// Field i and where it starts, if there is such a field.
pub fn unchecked_field(s: &[u8], i: usize) -> Option<(Field, BitPos)>
    ensures { field_with_start_says result ≡ field_with_start s.now i }
{
    let start = header::unchecked_start(s, i)?;
    Some((field_blocks::resolved(sheet::block(s, i)), start))
}

// A length slot.
pub fn unchecked_length_slot(s: &[u8], slot: u8) -> LengthSlot
    ensures { LengthSlotOf s.now slot result }
{
    let given = slots::slot_of(s, slot);
    LengthSlot {
        held: given.held,
        at: given.at,
        largest: length::largest_length(s, slot),
    }
}

// The block of entry k.
fn entry_block(s: &[u8], k: usize) -> Option<usize>
    ensures { result ≡ entry_block s.now k }
{
    let n = sheet::block_counts(s);
    if k < n.conds {
        return Some(n.fields + n.lengths + k);
    }
    None
}

// Entry k of the conditions, if there is such an entry.
pub fn unchecked_cond_entry(s: &[u8], k: usize) -> Option<CondEntry>
    ensures { result ≡ cond_entry s.now k }
{
    let block = entry_block(s, k)?;
    let b = sheet::block(s, block);
    Some(CondEntry {
        block,
        field: header::unchecked_field_named(s, name(b))?,
        ranges: blocks::range_count(b),
    })
}

// The first and the last number of range j of entry k, cut at the field's largest value.
pub fn unchecked_cond_range(s: &[u8], k: usize, j: u8) -> Option<(u64, u64)>
    ensures { result ≡ cond_range s.now k j }
{
    cond::range_numbers(s, entry_block(s, k)?, j)
}
