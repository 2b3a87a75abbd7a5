// The fields of a sheet: the items of an F block, byte by byte, and step 2, field 1 to 7 of all F blocks in order.
#![tactic(auto)]

ghost use Rattle.std.specs.Prelude.{◌≡◌, ◌^◌, ◌<◌};
ghost use Rattle.answer.specs.Paper.{says};
ghost use Rattle.field_blocks.specs.OnBlock.{repr_in, arg_in, gen_in, value_in, default_in, items_in, block_check, resolved_in, field_in};
ghost use Rattle.field_blocks.specs.Step.{fields_check};
ghost use Rattle.blocks.specs.Layout.{stated_bits};

use answer::Refusal;
use blocks::{
    stated_arg, stated_bits, stated_count, stated_default_kind, stated_fixed, stated_gen,
    stated_number, stated_repr,
};
use field::{DefaultVal, Field, Items, Span};
use number::Bits;
use types::{Arg, BuiltinTypes};

// The bits of an F block's field.
pub fn bits_in(b: &[u8]) -> Bits
    ensures { (result.0 ≡ stated_bits b.now) × (result.0 < 2 ^ 32) }
{
    Bits(stated_bits(b) as u64)
}

fn repr_in(b: &[u8]) -> Option<BuiltinTypes>
    ensures { result ≡ repr_in b.now }
{
    match stated_repr(b) {
        0 => None,
        code => Some(BuiltinTypes::of_code(code)),
    }
}

fn arg_in(b: &[u8]) -> Option<Arg>
    ensures { result ≡ arg_in b.now }
{
    match stated_arg(b) {
        0 => None,
        7 => Some(Arg::Code),
        code => Some(Arg::BuiltinTypes(BuiltinTypes::of_code(code))),
    }
}

fn gen_in(b: &[u8]) -> Option<bool>
    ensures { result ≡ gen_in b.now }
{
    match stated_gen(b) {
        0 => None,
        code => Some(code == 2),
    }
}

fn value_in(b: &[u8]) -> DefaultVal
    ensures { result ≡ value_in b.now }
{
    let kind = stated_default_kind(b);
    let number = stated_number(b);
    if kind == 1 {
        return DefaultVal::Num(number);
    }
    if kind == 2 {
        return DefaultVal::Bytes(Span {
            at: blocks::BYTES,
            len: stated_count(b) as usize,
        });
    }
    DefaultVal::Bool(number == 1)
}

fn default_in(b: &[u8]) -> Option<(DefaultVal, bool)>
    ensures { result ≡ default_in b.now }
{
    match stated_default_kind(b) {
        0 => None,
        _ => Some((value_in(b), stated_fixed(b) == 1)),
    }
}

// What an F block states of its field.
fn items_in(b: &[u8]) -> Items
    ensures { (result ≡ items_in b.now) × (result.width.0 < 2 ^ 32) }
{
    Items {
        width: bits_in(b),
        repr: repr_in(b),
        arg: arg_in(b),
        default: default_in(b),
        generate: gen_in(b),
    }
}

// The field of an F block; a refusal has the place given.
pub fn from_block(b: &[u8], place: usize) -> Result<Field, Refusal>
    ensures { says result ≡ field_in b.now place }
{
    items_in(b).field(place)
}

// The items of an F block with every absent one resolved; nothing is checked.
pub fn resolved(b: &[u8]) -> Field
    ensures { (result ≡ resolved_in b.now) × (result.width.0 < 2 ^ 32) }
{
    items_in(b).resolved()
}

// How its field is held, as `resolved` has it: by the bits and the stated repr. Nothing else of the block is read.
pub fn repr_of(b: &[u8]) -> BuiltinTypes
    ensures { result ≡ (resolved_in b.now).repr }
{
    let held = Items {
        width: bits_in(b),
        repr: repr_in(b),
        arg: None,
        default: None,
        generate: None,
    };
    held.repr_or_inferred()
}

// Field 1 to 7 of an F block; a refusal has the place given.
fn check_block(b: &[u8], place: usize) -> Result<(), Refusal>
    ensures { says result ≡ block_check b.now place }
{
    items_in(b).check(place)
}

// Step 2: the answer on the F blocks of a sheet, which are its first blocks.
pub fn check(s: &[u8]) -> Result<(), Refusal>
    ensures { says result ≡ fields_check s.now }
{
    for i in 0..sheet::block_counts(s).fields {
        check_block(sheet::block(s, i), i)?;
    }
    Ok(())
}
