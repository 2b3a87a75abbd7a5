// Asks single questions, outside any sheet, on both sides of a line: types by name, a field of five items. The answers were worked out by hand.
// Prints which parts were right and which were not.
#![tactic(auto)]

use answer::{Group, OnPaper};
use field::{DefaultVal, Field, Span};
use number::Bits;
use std::io;
use types::{Arg, BuiltinTypes};

// What is refused in this group with this number; a refusal that stands alone is at place 0.
fn refused<T>(group: Group, number: u8) -> Result<T, OnPaper> {
    Err(OnPaper {
        group,
        number,
        place: 0,
    })
}

// The code of the type with a name.
fn code_named(name: &[u8]) -> Result<u8, OnPaper> {
    match BuiltinTypes::from(name) {
        Ok(t) => Ok(t.code()),
        Err(r) => Err(r.on_paper()),
    }
}

fn numbers_by_name() -> bool {
    (code_named(b"u8") == Ok(1))
        & (code_named(b"u16") == Ok(2))
        & (code_named(b"u32") == Ok(3))
        & (code_named(b"u64") == Ok(4))
}

fn others_by_name() -> bool {
    (code_named(b"&[u8]") == Ok(5)) & (code_named(b"bool") == Ok(6))
}

fn no_names() -> bool {
    (code_named(b"") == refused(Group::Type, 1))
        & (code_named(b"U8") == refused(Group::Type, 1))
        & (code_named(b"u8 ") == refused(Group::Type, 1))
        & (code_named(b"&[u8") == refused(Group::Type, 1))
        & (code_named(b"code") == refused(Group::Type, 1))
}

// Whether a type's name, written out, is its name again.
fn returns(t: BuiltinTypes) -> bool {
    code_named(t.to_string()) == Ok(t.code())
}

fn names_back() -> bool {
    returns(BuiltinTypes::U8)
        & returns(BuiltinTypes::U16)
        & returns(BuiltinTypes::U32)
        & returns(BuiltinTypes::U64)
        & returns(BuiltinTypes::ByteSlice)
        & returns(BuiltinTypes::Bool)
}

// What is said of five items.
fn asked(
    bits: u64,
    repr: Option<BuiltinTypes>,
    arg: Option<Arg>,
    default: Option<(DefaultVal, bool)>,
) -> Result<(), OnPaper> {
    match Field::new(Bits(bits), repr, arg, default, None) {
        Ok(_) => Ok(()),
        Err(r) => Err(r.on_paper()),
    }
}

// Whether they make a field, and whether they are refused with this number.
fn passes(said: Result<(), OnPaper>) -> bool {
    said == Ok(())
}

fn fails(said: Result<(), OnPaper>, number: u8) -> bool {
    said == refused(Group::Field, number)
}

// A width alone.
fn wide(bits: u64) -> Result<(), OnPaper> {
    asked(bits, None, None, None)
}

fn widths() -> bool {
    fails(wide(0), 1)
        & passes(wide(1))
        & fails(wide(65), 1)
        & passes(wide(72))
        & passes(wide(33554424))
        & fails(wide(33554432), 1)
        & fails(wide(18446744073709551608), 1)
}

// A width as a byte slice, and with an arg.
fn sliced(bits: u64) -> Result<(), OnPaper> {
    let slice = Some(BuiltinTypes::ByteSlice);
    asked(bits, slice, None, None)
}

fn handed(bits: u64, arg: Arg) -> Result<(), OnPaper> {
    asked(bits, None, Some(arg), None)
}

fn kinds() -> bool {
    passes(sliced(16))
        & fails(sliced(8), 2)
        & fails(sliced(17), 2)
        & passes(handed(8, Arg::Code))
        & passes(handed(1, Arg::BuiltinTypes(BuiltinTypes::Bool)))
        & fails(handed(2, Arg::BuiltinTypes(BuiltinTypes::Bool)), 3)
        & fails(handed(9, Arg::BuiltinTypes(BuiltinTypes::U8)), 3)
}

// A default on a number field, on a bool of 1 bit, and on a byte slice of 16 bits.
fn on_number(bits: u64, d: DefaultVal) -> Result<(), OnPaper> {
    asked(bits, None, None, Some((d, true)))
}

fn on_bool(d: DefaultVal) -> Result<(), OnPaper> {
    let bool_arg = Some(Arg::BuiltinTypes(BuiltinTypes::Bool));
    asked(1, None, bool_arg, Some((d, false)))
}

fn on_slice(d: DefaultVal, fixed: bool) -> Result<(), OnPaper> {
    let slice = Some(BuiltinTypes::ByteSlice);
    asked(16, slice, None, Some((d, fixed)))
}

fn bytes(len: usize) -> DefaultVal {
    DefaultVal::Bytes(Span { at: 0, len })
}

fn defaults() -> bool {
    passes(on_number(3, DefaultVal::Num(7)))
        & fails(on_number(3, DefaultVal::Num(8)), 6)
        & passes(on_number(64, DefaultVal::Num(u64::MAX)))
        & fails(on_number(16, bytes(2)), 6)
        & passes(on_bool(DefaultVal::Num(1)))
        & fails(on_bool(DefaultVal::Num(2)), 4)
        & fails(on_bool(DefaultVal::Bool(true)), 4)
}

fn byte_defaults() -> bool {
    passes(on_slice(bytes(2), false))
        & fails(on_slice(bytes(1), false), 5)
        & fails(on_slice(bytes(3), true), 5)
        & fails(on_slice(bytes(2), true), 7)
        & fails(on_slice(DefaultVal::Num(0), false), 5)
        & fails(on_slice(DefaultVal::Bool(false), false), 5)
}

fn main(rt: HostRuntime) -> io::Result<()> {
    let parts = [
        ("numbers by name", numbers_by_name()),
        ("others by name", others_by_name()),
        ("no names", no_names()),
        ("names back", names_back()),
        ("widths", widths()),
        ("kinds", kinds()),
        ("defaults", defaults()),
        ("byte defaults", byte_defaults()),
    ];
    for (part, ok) in parts {
        let word = if ok { "right" } else { "wrong" };
        println!(rt; "{part} {word}")?;
    }
    Ok(())
}
