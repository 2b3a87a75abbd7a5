// Lengths: step 4, as the Rust's `Length::from_packet_length` has it, and the two lengths of a slot, of the largest value and of the default.
#![tactic(auto)]

ghost use Rattle.std.specs.Prelude.{◌≡◌};
ghost use Rattle.answer.specs.Paper.{says, first};
ghost use Rattle.sheet.specs.Blocks.{block_count};
ghost use Rattle.expr.specs.Forms.{length_says};
ghost use Rattle.length.specs.Named.{field_of_block};
ghost use Rattle.length.specs.Step.{largest as largest_of, of_default, arg_not_the_repr, length_field_fault, length_fault, expr_fault, slot_check, tree_fault, length_check, used, largest_length, default_length};

use answer::{LengthFault, Refusal, refuse};
use blocks::name;
use expr::UsableAlgExpr;
use field::{DefaultVal, Field};
use header::Header;
use number::Bytes;
use slots::LengthField;
use types::{Arg, BuiltinTypes};

// The field that the name of block i means, if there is one.
fn field_of_block(s: &[u8], i: usize) -> Option<Field>
    ensures { result ≡ field_of_block s.now i }
{
    let k = header::unchecked_field_named(s, name(sheet::block(s, i)))?;
    Some(field_blocks::resolved(sheet::block(s, k)))
}

// ---- the lengths of a field

fn largest(e: UsableAlgExpr, f: Field) -> Option<Bytes>
    ensures { length_says result ≡ largest_of e f }
{
    e.exec(number::max_value(f.width)?)
}

fn of_default(e: UsableAlgExpr, f: Field) -> Option<Bytes>
    ensures { length_says result ≡ of_default e f }
{
    let DefaultVal::Num(x) = f.default else {
        return None;
    };
    e.exec(x)
}

// ---- length 4 to 10 and 13, of an expression and its field

// Length 6: an arg that is not the repr, or a byte slice.
fn bad_arg(repr: BuiltinTypes, arg: Arg) -> bool
    ensures { result ≡ arg_not_the_repr repr arg }
{
    match arg {
        Arg::BuiltinTypes(t) => t != repr || repr.is_slice(),
        Arg::Code => true,
    }
}

// Length 4 to 7: a field that cannot be used.
#[tactic(auto, unfolding(crate::specs::Step::length_field_fault))]
fn field_fault(slot: u8, f: Field, at: usize) -> Result<(), Refusal>
    ensures { says result ≡ length_field_fault slot f at }
{
    refuse(
        64 < f.width.0,
        Refusal::Length(LengthFault::FieldOver64Bits, at),
    )?;
    refuse(f.generate, Refusal::Length(LengthFault::FieldGenerated, at))?;
    refuse(
        bad_arg(f.repr, f.arg),
        Refusal::Length(LengthFault::ArgNotTheRepr, at),
    )?;
    refuse(
        f.fixed && slot != 0,
        Refusal::Length(LengthFault::FieldFixed, at),
    )
}

// Length 8, 9, 13 and 10: the largest length, and the usual one, the default's.
#[tactic(auto, unfolding(crate::specs::Step::length_fault))]
fn length_fault(
    slot: u8,
    most: Option<Bytes>,
    usual: Option<Bytes>,
    header: Bytes,
    at: usize,
) -> Result<(), Refusal>
    ensures { says result ≡ length_fault slot (length_says most) (length_says usual) header.0 at }
{
    let most = most.ok_or(Refusal::Length(LengthFault::LargestLengthOverflows, at))?;
    refuse(
        most.over_max(),
        Refusal::Length(LengthFault::LargestLengthTooLong, at),
    )?;
    if slot != 0 {
        return Ok(());
    }
    let usual = usual.ok_or(Refusal::Length(LengthFault::DefaultLengthOverflows, at))?;
    refuse(
        usual.0 < header.0,
        Refusal::Length(LengthFault::DefaultLengthUnderHeader, at),
    )
}

// ---- the slots

// Length 3, then the tests of the field.
fn check_expr(
    slot: u8,
    e: UsableAlgExpr,
    named: Option<Field>,
    header: Bytes,
    at: usize,
) -> Result<(), Refusal>
    ensures { says result ≡ expr_fault header.0 slot at e named }
{
    let f = named.ok_or(Refusal::Length(LengthFault::NoSuchField, at))?;
    field_fault(slot, f, at)?;
    length_fault(slot, largest(e, f), of_default(e, f), header, at)
}

fn check_length_field(s: &[u8], header: Bytes, slot: u8) -> Result<(), Refusal>
    ensures { says result ≡ slot_check s.now header.0 slot }
{
    let given = slots::slot_of(s, slot);
    let LengthField::Expr(expr) = given.held else {
        return Ok(());
    };
    check_expr(slot, expr, field_of_block(s, given.at), header, given.at)
}

fn check_trees(s: &[u8]) -> Result<(), Refusal>
    ensures { says result ≡ first (tree_fault s.now) (block_count s.now) }
{
    for i in 0..sheet::block_count(s) {
        refuse(
            slots::no_form(sheet::block(s, i)),
            Refusal::Length(LengthFault::TreeNotAForm, i),
        )?;
    }
    Ok(())
}

// Step 4: the answer on the L blocks of a sheet with this header.
#[tactic(auto, unfolding(crate::specs::Step::length_check))]
pub fn check(s: &[u8], header: Header) -> Result<(), Refusal>
    ensures { says result ≡ length_check s.now header.len.0 }
{
    check_trees(s)?;
    let both = sheet::slot_block(s, 1).is_some() && sheet::slot_block(s, 2).is_some();
    refuse(
        both,
        Refusal::Length(LengthFault::PayloadAndPacketGiven, sheet::block_count(s)),
    )?;
    check_length_field(s, header.len, 0)?;
    check_length_field(s, header.len, 1)?;
    check_length_field(s, header.len, 2)
}

// The expression of a slot and its field, if there are both.
fn used_by(s: &[u8], slot: u8) -> Option<(UsableAlgExpr, Field)>
    ensures { result ≡ used s.now slot }
{
    let given = slots::slot_of(s, slot);
    let LengthField::Expr(expr) = given.held else {
        return None;
    };
    Some((expr, field_of_block(s, given.at)?))
}

// The length of the largest value of a slot's field.
pub fn largest_length(s: &[u8], slot: u8) -> Option<Bytes>
    ensures { length_says result ≡ largest_length s.now slot }
{
    let (e, f) = used_by(s, slot)?;
    largest(e, f)
}

// The length of the default of a slot's field.
pub fn default_length(s: &[u8], slot: u8) -> Option<Bytes>
    ensures { length_says result ≡ default_length s.now slot }
{
    let (e, f) = used_by(s, slot)?;
    of_default(e, f)
}
