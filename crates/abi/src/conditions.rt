// Conditions, in pairs of numbers.
ghost use Rattle.std.specs.Prelude.{◌≡◌, ◌≤◌};
ghost use Rattle.cond.specs.Step.{range_numbers};
ghost use Rattle.definition.specs.Unchecked.{cond_entry};
ghost use Rattle.abi.specs.Numbers.{range_pair, entry_pairs, pairs_if, cond_rows};

use definition::{CondEntry, Definition};

// The first and the last number of range j of the entry in block i.
fn range_pair(s: &[u8], i: usize, j: u8) -> [u64; 2]
    ensures { result ≡ range_pair (range_numbers s.now i j) }
{
    match cond::range_numbers(s, i, j) {
        Some((first, last)) => [first, last],
        None => [0, 0],
    }
}

// An entry: its field and how many ranges it has, then the ranges.
fn entry_pairs(s: &[u8], e: CondEntry) -> [[u64; 2]; 25]
    requires { e.ranges ≤ 24 }
    ensures { result ≡ entry_pairs s.now e }
{
    let mut pairs = [[0; 2]; 25];
    pairs[0] = [e.field as u64, e.ranges as u64];
    for j in 0..e.ranges {
        pairs[j as usize + 1] = range_pair(s, e.block, j);
    }
    pairs
}

// Entry k of a definition; zeros where there is none. (Called, so that its pairs do not lie on the stack while the sheet is checked.)
#[inline(never)]
fn condition(d: &Definition<'_>, k: usize) -> [[u64; 2]; 25]
    ensures { result ≡ pairs_if d.now.sheet.now (cond_entry d.now.sheet.now k) }
{
    match definition::unchecked_cond_entry(d.sheet, k) {
        Some(e) => entry_pairs(d.sheet, e),
        None => [[0; 2]; 25],
    }
}

// All entries of a definition.
pub(crate) fn tell_conditions(d: &Definition<'_>, conditions: &mut [[[u64; 2]; 25]; 8])
    ensures { conditions.new ≡ cond_rows d.now.sheet.now }
{
    *conditions = [[[0; 2]; 25]; 8];
    for k in 0..sheet::block_counts(d.sheet).conds {
        conditions[k] = condition(d, k);
    }
}
