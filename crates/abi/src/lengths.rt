// Lengths in five numbers, and their forms back.
ghost use Rattle.std.specs.Prelude.{◌≡◌, Some};
ghost use Rattle.answer.specs.Walk.{or_zero};
ghost use Rattle.header.specs.Names.{name_at, field_named};
ghost use Rattle.abi.specs.Numbers.{expr_numbers, form_numbers, slot_field_number, slot_numbers, length_rows, form_if, form_from, forward_by, back_by};

use definition::Definition;
use expr::UsableAlgExpr;
use number::Bytes;
use slots::LengthField;

// A form, and its two numbers.
fn expr_form(e: UsableAlgExpr) -> [u64; 3]
    ensures { result ≡ expr_numbers e }
{
    match e {
        UsableAlgExpr::IdentOnly => [1, 0, 0],
        UsableAlgExpr::SimpleAdd(a) => [2, a, 0],
        UsableAlgExpr::SimpleMult(m) => [3, m, 0],
        UsableAlgExpr::AddMult(a, m) => [4, a, m],
        UsableAlgExpr::MultAdd(m, a) => [5, m, a],
    }
}

// What a slot holds, and its two numbers.
fn slot_form(held: LengthField) -> [u64; 3]
    ensures { result ≡ form_numbers held }
{
    match held {
        LengthField::Absent => [6, 0, 0],
        LengthField::Undefined => [0, 0, 0],
        LengthField::Expr(e) => expr_form(e),
    }
}

// The index of the field that the name of block i means; 0 where there is none.
fn named_field(sheet: &[u8], i: usize) -> u64
    ensures { result ≡ or_zero (field_named sheet.now (name_at sheet.now i)) }
{
    header::unchecked_field_named(sheet, blocks::name(sheet::block(sheet, i))).unwrap_or(0) as u64
}

// The field of what a slot holds, from block i; 0 where it holds no expression.
fn slot_field(sheet: &[u8], i: usize, held: LengthField) -> u64
    ensures { result ≡ slot_field_number sheet.now i held }
{
    match held {
        LengthField::Absent | LengthField::Undefined => 0,
        LengthField::Expr(_) => named_field(sheet, i),
    }
}

// The five numbers of a length slot.
#[tactic(auto, unfolding(crate::specs::Numbers::slot_numbers))]
fn slot_numbers(sheet: &[u8], slot: u8) -> [u64; 5]
    ensures { result ≡ slot_numbers sheet.now slot }
{
    let says = definition::unchecked_length_slot(sheet, slot);
    let [form, first, second] = slot_form(says.held);
    let field = slot_field(sheet, says.at, says.held);
    let most = says.largest.map_or(0, |n| n.0);
    [form, first, second, field, most]
}

// Those of all three of a definition.
pub(crate) fn tell_lengths(d: &Definition<'_>, lengths: &mut [[u64; 5]; 3])
    ensures { lengths.new ≡ length_rows d.now.sheet.now }
{
    let header = slot_numbers(d.sheet, 0);
    let payload = slot_numbers(d.sheet, 1);
    let packet = slot_numbers(d.sheet, 2);
    *lengths = [header, payload, packet];
}

// The form that was found of two numbers, where they are its own.
fn if_its_own(e: UsableAlgExpr, first: u64, second: u64) -> Option<UsableAlgExpr>
    ensures { result ≡ form_if first second (Some e) }
{
    let [_, own_first, own_second] = expr_form(e);
    if own_first == first && own_second == second {
        return Some(e);
    }
    None
}

// The form that the first three numbers of a length tell; none where they tell of no form.
#[tactic(auto, unfolding(crate::specs::Numbers::form_from, expr::specs::Forms::form_of))]
fn form_from(length: &[u64; 5]) -> Option<UsableAlgExpr>
    ensures { result ≡ form_from length.now }
{
    let [code, first, second, _, _] = *length;
    if 5 < code {
        return None;
    }
    if_its_own(tree::of_form(code as u8, first, second)?, first, second)
}

// The length of a value by that form, and the value whose length this is.
pub(crate) fn forward(length: &[u64; 5], x: u64) -> Option<u64>
    ensures { result ≡ forward_by length.now x }
{
    Some(form_from(length)?.exec(x)?.0)
}

pub(crate) fn back(length: &[u64; 5], y: u64) -> Option<u64>
    ensures { result ≡ back_by length.now y }
{
    form_from(length)?.reverse_exec(Bytes(y))
}
