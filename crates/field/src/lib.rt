// Fields: what a table says of one field, checked as the Rust's `Field::new` checks it, and the record of a field that passed.
// A default's bytes stay where they are, in the block of the field: the record holds their span, and not the bytes, so that it is a
// value by itself.
#![tactic(auto)]

ghost use Rattle.std.specs.Prelude.{◌≡◌};
ghost use Rattle.answer.specs.Paper.{says};
ghost use Rattle.field.specs.Fields.{infer_repr, repr_of, arg_of, infer_default, default_of, fixed_of, bad_width, bad_repr, bad_arg, is_bool_arg, bad_bool, bad_bytes, bad_number, fixed_bytes, value_check, default_check, field_check, field_of, new_field, repr_bytes, write_guard};

use answer::{FieldFault, Refusal, refuse};
use number::{Bits, Bytes};
use types::{Arg, BuiltinTypes};

// A stretch of bytes in the block of a field.
#[derive(Clone, Copy, Debug, PartialEq, Eq)]
pub struct Span {
    pub at: usize,
    pub len: usize,
}

// A default: a number, or bytes, those of the span and then zeros. (A bool can be given, but no field is accepted with one.)
#[derive(Clone, Copy, Debug, PartialEq, Eq)]
pub enum DefaultVal {
    Num(u64),
    Bool(bool),
    Bytes(Span),
}

// What is stated of a field: any item but the width may be absent.
#[derive(Clone, Copy, Debug, PartialEq, Eq)]
pub struct Items {
    pub width: Bits,
    pub repr: Option<BuiltinTypes>,
    pub arg: Option<Arg>,
    // the default, and whether it is fixed
    pub default: Option<(DefaultVal, bool)>,
    pub generate: Option<bool>,
}

// A field with every item resolved.
#[derive(Clone, Copy, Debug, PartialEq, Eq)]
pub struct Field {
    pub width: Bits,
    // how it is held
    pub repr: BuiltinTypes,
    // how it is handed over
    pub arg: Arg,
    pub default: DefaultVal,
    // whether its own reading and writing is made public (`gen` in the Rust)
    pub generate: bool,
    pub fixed: bool,
}

// ---- what an absent item stands for

#[tactic(auto, unfolding(crate::specs::Fields::infer_repr))]
fn infer_repr(width: Bits) -> BuiltinTypes
    ensures { result ≡ infer_repr width.0 }
{
    match width.0 {
        0..=8 => BuiltinTypes::U8,
        9..=16 => BuiltinTypes::U16,
        17..=32 => BuiltinTypes::U32,
        33..=64 => BuiltinTypes::U64,
        _ => BuiltinTypes::ByteSlice,
    }
}

// Of bytes none are stated, so that all are zero.
fn infer_default_val(repr: BuiltinTypes) -> DefaultVal
    ensures { result ≡ infer_default repr }
{
    if repr.is_slice() {
        return DefaultVal::Bytes(Span { at: 0, len: 0 });
    }
    DefaultVal::Num(0)
}

// ---- field 1 to 7, a test each

// Field 1: a width that no field may have.
fn bad_width(width: Bits) -> bool
    ensures { result ≡ bad_width width.0 }
{
    (width.0 == 0) | ((64 < width.0) & !width.is_whole_bytes()) | width.over_max()
}

// Field 2: neither the inferred type nor a byte slice of whole bytes.
fn bad_repr(width: Bits, repr: BuiltinTypes) -> bool
    ensures { result ≡ bad_repr width.0 repr }
{
    (repr != infer_repr(width)) & !(repr.is_slice() & (8 < width.0) & width.is_whole_bytes())
}

// Field 3: neither the repr, nor bool on 1 bit, nor code.
fn bad_arg(width: Bits, repr: BuiltinTypes, arg: Arg) -> bool
    ensures { result ≡ bad_arg width.0 repr arg }
{
    match arg {
        Arg::BuiltinTypes(t) => (t != repr) & !((t == BuiltinTypes::Bool) & (width.0 == 1)),
        Arg::Code => false,
    }
}

fn is_bool(arg: Arg) -> bool
    ensures { result ≡ is_bool_arg arg }
{
    arg == Arg::BuiltinTypes(BuiltinTypes::Bool)
}

// Field 4: not the number 0 or 1. (A bool, of kind 3, is never one.)
fn bad_bool(d: DefaultVal) -> bool
    ensures { result ≡ bad_bool d }
{
    match d {
        DefaultVal::Num(n) => 1 < n,
        DefaultVal::Bool(_) | DefaultVal::Bytes(_) => true,
    }
}

// Field 5: not as many bytes as the field has.
fn bad_bytes(width: Bits, d: DefaultVal) -> bool
    ensures { result ≡ bad_bytes width.0 d }
{
    match d {
        DefaultVal::Num(_) | DefaultVal::Bool(_) => true,
        DefaultVal::Bytes(s) => (s.len as u64) != width.whole_bytes().0,
    }
}

// Field 6: no number within the width.
fn bad_number(width: Bits, d: DefaultVal) -> bool
    ensures { result ≡ bad_number width.0 d }
{
    let DefaultVal::Num(n) = d else {
        return true;
    };
    number::max_value(width).is_none_or(|most| most < n)
}

// Field 7: bytes that are fixed.
fn fixed_bytes(d: DefaultVal, fixed: bool) -> bool
    ensures { result ≡ fixed_bytes d fixed }
{
    match d {
        DefaultVal::Num(_) | DefaultVal::Bool(_) => false,
        DefaultVal::Bytes(_) => fixed,
    }
}

// ---- the tests in order

fn check_value(
    place: usize,
    width: Bits,
    repr: BuiltinTypes,
    arg: Arg,
    d: DefaultVal,
) -> Result<(), Refusal>
    ensures { says result ≡ value_check place width.0 repr arg d }
{
    let (bad, fault) = if is_bool(arg) {
        (bad_bool(d), FieldFault::BoolDefaultNotZeroOrOne)
    } else if repr.is_slice() {
        (bad_bytes(width, d), FieldFault::SliceDefaultNotItsBytes)
    } else {
        (bad_number(width, d), FieldFault::NumberDefaultNotInWidth)
    };
    refuse(bad, Refusal::Field(fault, place))
}

impl Items {
    // How the field is held.
    pub fn repr_or_inferred(self) -> BuiltinTypes
        ensures { result ≡ repr_of self.width.0 self.repr }
    {
        self.repr.unwrap_or(infer_repr(self.width))
    }

    fn arg_or_repr(self, repr: BuiltinTypes) -> Arg
        ensures { result ≡ arg_of repr self.arg }
    {
        self.arg.unwrap_or(Arg::BuiltinTypes(repr))
    }

    fn default_or_zero(self, repr: BuiltinTypes) -> DefaultVal
        ensures { result ≡ default_of repr self.default }
    {
        self.default.map_or(infer_default_val(repr), |(d, _)| d)
    }

    fn is_fixed(self) -> bool
        ensures { result ≡ fixed_of self.default }
    {
        self.default.is_some_and(|(_, fixed)| fixed)
    }

    // Field 4 to 7: what is stated as the default.
    fn check_default(self, place: usize, repr: BuiltinTypes, arg: Arg) -> Result<(), Refusal>
        ensures { says result ≡ default_check place self.width.0 repr arg self.default }
    {
        let Some((d, fixed)) = self.default else {
            return Ok(());
        };
        check_value(place, self.width, repr, arg, d)?;
        refuse(
            fixed_bytes(d, fixed),
            Refusal::Field(FieldFault::BytesDefaultFixed, place),
        )
    }

    // Field 1 to 7 in order; a refusal has the place given.
    #[tactic(auto, unfolding(crate::specs::Fields::field_check))]
    pub fn check(self, place: usize) -> Result<(), Refusal>
        ensures { says result ≡ field_check place self.width.0 self.repr self.arg self.default }
    {
        let repr = self.repr_or_inferred();
        let arg = self.arg_or_repr(repr);
        refuse(
            bad_width(self.width),
            Refusal::Field(FieldFault::WidthNotAllowed, place),
        )?;
        refuse(
            bad_repr(self.width, repr),
            Refusal::Field(FieldFault::ReprNotAllowed, place),
        )?;
        refuse(
            bad_arg(self.width, repr, arg),
            Refusal::Field(FieldFault::ArgNotAllowed, place),
        )?;
        self.check_default(place, repr, arg)
    }

    // Every absent item replaced by what it stands for; nothing is checked.
    pub fn resolved(self) -> Field
        ensures { result ≡ field_of self.width.0 self.repr self.arg self.default self.generate }
    {
        let repr = self.repr_or_inferred();
        Field {
            width: self.width,
            repr,
            arg: self.arg_or_repr(repr),
            default: self.default_or_zero(repr),
            generate: self.generate.unwrap_or(true),
            fixed: self.is_fixed(),
        }
    }

    // The field of the items; a refusal has the place given.
    pub fn field(self, place: usize) -> Result<Field, Refusal>
        ensures { says result ≡ new_field place self.width.0 self.repr self.arg self.default self.generate }
    {
        self.check(place)?;
        Ok(self.resolved())
    }
}

// The bytes of a repr.
fn repr_bytes(width: Bits, repr: BuiltinTypes) -> Bytes
    ensures { result.0 ≡ repr_bytes width.0 repr }
{
    match repr {
        BuiltinTypes::U8 | BuiltinTypes::Bool => Bytes(1),
        BuiltinTypes::U16 => Bytes(2),
        BuiltinTypes::U32 => Bytes(4),
        BuiltinTypes::U64 => Bytes(8),
        BuiltinTypes::ByteSlice => width.whole_bytes(),
    }
}

impl Field {
    // The field of five items, as the Rust's `Field::new`; alone a refusal has place 0.
    pub fn new(
        width: Bits,
        repr: Option<BuiltinTypes>,
        arg: Option<Arg>,
        default: Option<(DefaultVal, bool)>,
        generate: Option<bool>,
    ) -> Result<Field, Refusal>
        ensures { says result ≡ new_field 0 width.0 repr arg default generate }
    {
        Items {
            width,
            repr,
            arg,
            default,
            generate,
        }
        .field(0)
    }

    // Whether a write to the field has to be guarded.
    pub fn need_write_guard(self) -> bool
        ensures { result ≡ write_guard self }
    {
        self.fixed
            | !self.width.is_whole_bytes()
            | (self.width.whole_bytes() != repr_bytes(self.width, self.repr))
    }
}
