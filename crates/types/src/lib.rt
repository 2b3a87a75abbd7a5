// The built-in types by which a field is held and handed over, their codes on the sheet, and their names.
#![tactic(auto)]

ghost use Rattle.std.specs.Prelude.{◌≡◌};
ghost use Rattle.answer.specs.Paper.{says};
ghost use Rattle.types.specs.Types.{type_code, type_of_code, arg_code, is_slice, type_name, type_from};

use answer::{Refusal, TypeFault};
use octets::same_bytes;

#[derive(Clone, Copy, Debug, PartialEq, Eq)]
pub enum BuiltinTypes {
    U8 = 1,
    U16 = 2,
    U32 = 3,
    U64 = 4,
    ByteSlice = 5,
    Bool = 6,
}

// How a field is handed over: as a type, or by code of the reader's own.
#[derive(Clone, Copy, Debug, PartialEq, Eq)]
pub enum Arg {
    BuiltinTypes(BuiltinTypes),
    Code,
}

impl BuiltinTypes {
    const ALL: [BuiltinTypes; 6] = [
        BuiltinTypes::U8,
        BuiltinTypes::U16,
        BuiltinTypes::U32,
        BuiltinTypes::U64,
        BuiltinTypes::ByteSlice,
        BuiltinTypes::Bool,
    ];

    // The code on the sheet.
    pub fn code(self) -> u8
        ensures { result ≡ type_code self }
    {
        self as u8
    }

    // The type of a code; any number but 1 to 5 stands for bool.
    pub fn of_code(code: u8) -> BuiltinTypes
        ensures { result ≡ type_of_code code }
    {
        match code {
            1 => BuiltinTypes::U8,
            2 => BuiltinTypes::U16,
            3 => BuiltinTypes::U32,
            4 => BuiltinTypes::U64,
            5 => BuiltinTypes::ByteSlice,
            _ => BuiltinTypes::Bool,
        }
    }

    pub fn is_slice(self) -> bool
        ensures { result ≡ is_slice self }
    {
        self == BuiltinTypes::ByteSlice
    }

    // The name, as the Rust's function of this name.
    pub fn to_string(self) -> &'static [u8]
        ensures { result.now ≡ type_name self }
    {
        match self {
            BuiltinTypes::U8 => b"u8",
            BuiltinTypes::U16 => b"u16",
            BuiltinTypes::U32 => b"u32",
            BuiltinTypes::U64 => b"u64",
            BuiltinTypes::ByteSlice => b"&[u8]",
            BuiltinTypes::Bool => b"bool",
        }
    }

    // The type with this name, or type 1.
    pub fn from(value: &[u8]) -> Result<BuiltinTypes, Refusal>
        ensures { says result ≡ type_from value.now }
    {
        for t in BuiltinTypes::ALL {
            if same_bytes(value, t.to_string()) {
                return Ok(t);
            }
        }
        Err(Refusal::Type(TypeFault::UnknownName))
    }
}

impl Arg {
    // The code on the sheet.
    pub fn code(self) -> u8
        ensures { result ≡ arg_code self }
    {
        match self {
            Arg::BuiltinTypes(t) => t.code(),
            Arg::Code => 7,
        }
    }
}
