// Conditions: the ranges of a C block, and step 5, as the Rust's `Cond::from_cond_list` has it. Entries keep the order of the sheet.
#![tactic(auto)]

ghost use Rattle.std.specs.Prelude.{◌≡◌, Bool, ◌&&◌};
ghost use Rattle.answer.specs.Paper.{gives, says};
ghost use Rattle.octets.specs.Octets.{same};
ghost use Rattle.blocks.specs.Layout.{name_of};
ghost use Rattle.bounds.specs.Bounds.{is_empty, holds_none, meets};
ghost use Rattle.cond.specs.Ranges.{start_bound, end_bound, range_in, largest_of, clipped_in};
ghost use Rattle.cond.specs.Step.{meets_earlier, range_fault, ranges_check, is_entry, listed_before, cond_fault, entry_fault, cond_check, range_numbers};

use answer::{CondFault, Refusal, refuse};
use blocks::name;
use bounds::CondBounds;
use field::Field;
use octets::same_bytes;
use std::ops::Bound;

// ---- the ranges of a block

fn start_of(kind: u8, number: u64) -> Bound<u64>
    ensures { result ≡ start_bound kind number }
{
    match kind {
        0 => Bound::Unbounded,
        _ => Bound::Included(number),
    }
}

fn end_of(kind: u8, number: u64) -> Bound<u64>
    ensures { result ≡ end_bound kind number }
{
    match kind {
        0 => Bound::Unbounded,
        1 => Bound::Included(number),
        _ => Bound::Excluded(number),
    }
}

// Range k of a C block, as it stands there.
#[tactic(auto, unfolding(crate::specs::Ranges::range_in))]
fn range_in(b: &[u8], k: u8) -> CondBounds
    ensures { result ≡ range_in b.now k }
{
    let r = blocks::stated_range(b, k);
    CondBounds {
        start: start_of(r.opens, r.start),
        end: end_of(r.closes, r.end),
    }
}

// The same with its end cut at a largest value.
fn clipped_in(b: &[u8], most: u64, k: u8) -> CondBounds
    ensures { result ≡ clipped_in b.now most k }
{
    range_in(b, k).update_end(most)
}

// The largest value of a field.
fn largest(f: Field) -> u64
    ensures { result ≡ largest_of f }
{
    number::max_value(f.width).unwrap_or(u64::MAX)
}

// ---- cond 4 and 6

// Whether a range holds no number. (No start that a sheet can state is refused.)
fn is_empty(c: CondBounds) -> bool
    ensures { (empty : Bool) → is_empty c ≡ gives empty → result ≡ empty }
{
    c.is_empty().unwrap_or(true)
}

fn empty_in(b: &[u8], most: u64, k: u8) -> bool
    ensures { result ≡ holds_none (clipped_in b.now most k) }
{
    is_empty(clipped_in(b, most, k))
}

fn meet_in(b: &[u8], most: u64, j: u8, k: u8) -> bool
    ensures { result ≡ meets (clipped_in b.now most j) (clipped_in b.now most k) }
{
    match clipped_in(b, most, j).intersect(clipped_in(b, most, k)) {
        Ok(both) => !is_empty(both),
        Err(_) => false,
    }
}

fn meets_earlier(b: &[u8], most: u64, k: u8) -> bool
    ensures { result ≡ meets_earlier b.now most k }
{
    (0..k).any(|j| meet_in(b, most, j, k))
}

fn range_fault(b: &[u8], most: u64, i: usize, k: u8) -> Result<(), Refusal>
    ensures { says result ≡ range_fault b.now most i k }
{
    refuse(
        empty_in(b, most, k),
        Refusal::Cond(CondFault::RangeEmpty, i),
    )?;
    refuse(
        meets_earlier(b, most, k),
        Refusal::Cond(CondFault::RangesMeet, i),
    )
}

fn check_ranges(b: &[u8], most: u64, i: usize) -> Result<(), Refusal>
    ensures { says result ≡ ranges_check b.now most i }
{
    for k in 0..blocks::range_count(b) {
        range_fault(b, most, i, k)?;
    }
    Ok(())
}

// ---- the entries

fn is_entry(b: &[u8]) -> bool
    ensures { result ≡ is_entry b.now }
{
    blocks::kind(b) == b'C'
}

fn lists(b: &[u8], wanted: &[u8]) -> bool
    ensures { result ≡ (is_entry b.now && same (name_of b.now) wanted.now) }
{
    is_entry(b) && same_bytes(name(b), wanted)
}

// Cond 7: whether an entry before block i lists the same field.
fn listed_before(s: &[u8], i: usize) -> bool
    ensures { result ≡ listed_before s.now i }
{
    let wanted = name(sheet::block(s, i));
    (0..i).any(|j| lists(sheet::block(s, j), wanted))
}

// Cond 2 to 7 of the entry in block i, which names this field.
#[tactic(auto, unfolding(crate::specs::Step::cond_fault))]
fn field_fault(s: &[u8], i: usize, f: Field) -> Result<(), Refusal>
    ensures { says result ≡ cond_fault s.now i f }
{
    refuse(
        f.repr.is_slice(),
        Refusal::Cond(CondFault::FieldIsByteSlice, i),
    )?;
    check_ranges(sheet::block(s, i), largest(f), i)?;
    refuse(
        listed_before(s, i),
        Refusal::Cond(CondFault::FieldListedBefore, i),
    )
}

// Cond 1 to 7 of block i, where it is an entry.
fn entry_fault(s: &[u8], i: usize) -> Result<(), Refusal>
    ensures { says result ≡ entry_fault s.now i }
{
    let b = sheet::block(s, i);
    if !is_entry(b) {
        return Ok(());
    }
    let named = header::unchecked_field_named(s, name(b));
    let k = named.ok_or(Refusal::Cond(CondFault::NoSuchField, i))?;
    field_fault(s, i, field_blocks::resolved(sheet::block(s, k)))
}

// Step 5: the answer on the C blocks of a sheet.
pub fn check(s: &[u8]) -> Result<(), Refusal>
    ensures { says result ≡ cond_check s.now }
{
    let n = sheet::block_count(s);
    for i in 0..n {
        entry_fault(s, i)?;
    }
    let many = 8 < sheet::block_counts(s).conds;
    refuse(many, Refusal::Cond(CondFault::OverEightEntries, n))
}

// The first and the last number of range k of the entry in block i, cut at the field's largest value.
#[tactic(auto, unfolding(crate::specs::Step::range_numbers))]
pub fn range_numbers(s: &[u8], i: usize, k: u8) -> Option<(u64, u64)>
    ensures { result ≡ range_numbers s.now i k }
{
    let b = sheet::block(s, i);
    if !(is_entry(b) & (k < blocks::range_count(b))) {
        return None;
    }
    let j = header::unchecked_field_named(s, name(b))?;
    clipped_in(b, largest(field_blocks::resolved(sheet::block(s, j))), k).first_last()
}
