// Sheets: 0 to 99 blocks, F for fields, L for lengths, C for conditions. What a sheet holds, and step 1: which bytes are a sheet.
#![tactic(auto)]

ghost use Rattle.std.specs.Prelude.{◌≡◌, ◌<◌, ◌^◌};
ghost use Rattle.answer.specs.Paper.{says};
ghost use Rattle.sheet.specs.Blocks.{block_count, block_at, counts_of, is_slot, slot_block};
ghost use Rattle.sheet.specs.Sheet.{slot_before, block_fault, sheet_check};
ghost use Rattle.sheet.specs.Working.{counted, misplaced_after, too_many_after};

use answer::{Refusal, SheetFault, refuse};
use blocks::check::check_holds;
use blocks::{kind, layout_holds, stated_slot};

// How many blocks there are of each kind.
#[derive(Clone, Copy, Debug, Default, PartialEq, Eq)]
pub struct Counts {
    pub fields: usize,
    pub lengths: usize,
    pub conds: usize,
}

// How many whole blocks there are.
pub fn block_count(s: &[u8]) -> usize
    ensures { result ≡ block_count s.now }
{
    s.len() / blocks::SIZE
}

// Block i; an empty part past the last whole one. (Sheets and blocks are slices: every function answers on any bytes, so that a struct
// of theirs would say no more than the slice. Walks count the blocks: a place is a block's index, and the definitions go by it.)
pub fn block(s: &[u8], i: usize) -> &[u8]
    ensures { result.now ≡ block_at s.now i }
{
    if i < s.len() / blocks::SIZE {
        &s[blocks::SIZE * i..blocks::SIZE * i + blocks::SIZE]
    } else {
        &s[..0]
    }
}

impl Counts {
    // With one block more, of this kind.
    fn with(self, kind: u8) -> Counts
        requires { (self.fields < 2 ^ 63) × (self.lengths < 2 ^ 63) × (self.conds < 2 ^ 63) }
        ensures { result ≡ counted self kind }
    {
        Counts {
            fields: self.fields + usize::from(kind == b'F'),
            lengths: self.lengths + usize::from(kind == b'L'),
            conds: self.conds + usize::from(kind == b'C'),
        }
    }
}

// How many blocks of each kind the bytes hold.
pub fn block_counts(s: &[u8]) -> Counts
    ensures { result ≡ counts_of s.now (block_count s.now) }
{
    let mut all = Counts::default();
    for i in 0..block_count(s) {
        all = all.with(kind(block(s, i)));
    }
    all
}

// Whether a block is an L block of this slot.
fn gives_slot(b: &[u8], slot: u8) -> bool
    ensures { result ≡ is_slot slot b.now }
{
    (kind(b) == b'L') & (stated_slot(b) == slot)
}

// The first of the first n blocks that gives a slot.
fn slot_among(s: &[u8], slot: u8, n: usize) -> Option<usize>
    ensures { result ≡ slot_block s.now slot n }
{
    (0..n).find(|i| gives_slot(block(s, *i), slot))
}

// The block that gives a slot, if one does.
pub fn slot_block(s: &[u8], slot: u8) -> Option<usize>
    ensures { result ≡ slot_block s.now slot (block_count s.now) }
{
    slot_among(s, slot, block_count(s))
}

// Whether a kind is unknown, or one that had to come before a block that stands before it.
fn misplaced(kind: u8, before: Counts) -> bool
    ensures { result ≡ misplaced_after before kind }
{
    !((kind == b'F') | (kind == b'L') | (kind == b'C'))
        | ((kind == b'F') & ((0 < before.lengths) | (0 < before.conds)))
        | ((kind == b'L') & (0 < before.conds))
}

// Whether there are as many of the kind before as there may be.
fn too_many(kind: u8, before: Counts) -> bool
    ensures { result ≡ too_many_after before kind }
{
    ((kind == b'F') & (64 <= before.fields)) | ((kind == b'C') & (32 <= before.conds))
}

// Whether block i is an L block whose slot was given before.
fn slot_before(s: &[u8], i: usize) -> bool
    ensures { result ≡ slot_before s.now i }
{
    let b = block(s, i);
    kind(b) == b'L' && slot_among(s, stated_slot(b), i).is_some()
}

// Sheet 2 to 6 of block i, where so many blocks of each kind stand before it.
#[tactic(auto, unfolding(crate::specs::Sheet::block_fault))]
fn block_fault(s: &[u8], i: usize, before: Counts) -> Result<(), Refusal>
    requires { before ≡ counts_of s.now i }
    ensures { says result ≡ block_fault s.now i }
{
    let b = block(s, i);
    let kind = kind(b);
    refuse(!check_holds(b), Refusal::Sheet(SheetFault::BadCheck, i))?;
    refuse(
        misplaced(kind, before),
        Refusal::Sheet(SheetFault::UnknownOrMisplacedKind, i),
    )?;
    refuse(
        too_many(kind, before),
        Refusal::Sheet(SheetFault::TooManyOfAKind, i),
    )?;
    refuse(
        !layout_holds(b),
        Refusal::Sheet(SheetFault::ByteOutsideLayout, i),
    )?;
    refuse(
        slot_before(s, i),
        Refusal::Sheet(SheetFault::SlotGivenTwice, i),
    )
}

// Step 1: the answer on any bytes.
pub fn check(s: &[u8]) -> Result<(), Refusal>
    ensures { says result ≡ sheet_check s.now }
{
    let n = block_count(s);
    let wrong = (s.len() % blocks::SIZE != 0) | (99 < n);
    refuse(wrong, Refusal::Sheet(SheetFault::WrongLength, 0))?;
    let mut before = Counts::default();
    for i in 0..n {
        block_fault(s, i, before)?;
        before = before.with(kind(block(s, i)));
    }
    Ok(())
}
