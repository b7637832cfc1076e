//! The builtin types, such as `u8` and `str`, whose names each program has.
ghost use Rattle.std.specs.Prelude.{◌≡◌, IfOk, Some};
ghost use Rattle.dm_base.specs.Names.{find_name};
ghost use Rattle.dm_base.specs.Builtins.{builtin_words, int_words, uint_words, float_words, builtin_word, int_word, uint_word, float_word};

use crate::name::{AsName, Name};
use crate::symbol::Symbol;
use std::alloc::{AllocError, Global};
use std::fmt;

/// The signed integers.
#[derive(Clone, Copy, PartialEq, Eq, PartialOrd, Ord, Hash, Debug)]
pub enum BuiltinInt {
    Isize,
    I8,
    I16,
    I32,
    I64,
    I128,
}

/// The unsigned integers.
#[derive(Clone, Copy, PartialEq, Eq, PartialOrd, Ord, Hash, Debug)]
pub enum BuiltinUint {
    Usize,
    U8,
    U16,
    U32,
    U64,
    U128,
}

/// The floats, which are names only.
#[derive(Clone, Copy, PartialEq, Eq, PartialOrd, Ord, Hash, Debug)]
pub enum BuiltinFloat {
    F16,
    F32,
    F64,
    F128,
}

/// The builtin types.
#[derive(Clone, Copy, PartialEq, Eq, Hash, Debug)]
pub enum BuiltinType {
    Char,
    Bool,
    Str,
    Int(BuiltinInt),
    Uint(BuiltinUint),
    Float(BuiltinFloat),
}

impl BuiltinType {
    const ALL: [BuiltinType; 19] = [
        BuiltinType::Char,
        BuiltinType::Bool,
        BuiltinType::Str,
        BuiltinType::Int(BuiltinInt::Isize),
        BuiltinType::Int(BuiltinInt::I8),
        BuiltinType::Int(BuiltinInt::I16),
        BuiltinType::Int(BuiltinInt::I32),
        BuiltinType::Int(BuiltinInt::I64),
        BuiltinType::Int(BuiltinInt::I128),
        BuiltinType::Uint(BuiltinUint::Usize),
        BuiltinType::Uint(BuiltinUint::U8),
        BuiltinType::Uint(BuiltinUint::U16),
        BuiltinType::Uint(BuiltinUint::U32),
        BuiltinType::Uint(BuiltinUint::U64),
        BuiltinType::Uint(BuiltinUint::U128),
        BuiltinType::Float(BuiltinFloat::F16),
        BuiltinType::Float(BuiltinFloat::F32),
        BuiltinType::Float(BuiltinFloat::F64),
        BuiltinType::Float(BuiltinFloat::F128),
    ];

    /// The builtin types in order, each under its name.
    ///
    /// Fails where an allocation fails, and then changes nothing.
    pub fn all_builtin_types(alloc: Global) -> Result<[(Name, BuiltinType); 19], AllocError>
        ensures { IfOk result (λ all. all ≡ builtin_words) }
    {
        BuiltinType::ALL.try_map(|builtin: BuiltinType| named(alloc, builtin))
    }

    /// The builtin type that a name means where nothing shadows it. Does not allocate.
    pub fn by_name(name: &Name) -> Option<BuiltinType>
        ensures { result ≡ find_name name.now builtin_words }
    {
        match name.as_str() {
            "char" => Some(BuiltinType::Char),
            "bool" => Some(BuiltinType::Bool),
            "str" => Some(BuiltinType::Str),
            "isize" => Some(BuiltinType::Int(BuiltinInt::Isize)),
            "i8" => Some(BuiltinType::Int(BuiltinInt::I8)),
            "i16" => Some(BuiltinType::Int(BuiltinInt::I16)),
            "i32" => Some(BuiltinType::Int(BuiltinInt::I32)),
            "i64" => Some(BuiltinType::Int(BuiltinInt::I64)),
            "i128" => Some(BuiltinType::Int(BuiltinInt::I128)),
            "usize" => Some(BuiltinType::Uint(BuiltinUint::Usize)),
            "u8" => Some(BuiltinType::Uint(BuiltinUint::U8)),
            "u16" => Some(BuiltinType::Uint(BuiltinUint::U16)),
            "u32" => Some(BuiltinType::Uint(BuiltinUint::U32)),
            "u64" => Some(BuiltinType::Uint(BuiltinUint::U64)),
            "u128" => Some(BuiltinType::Uint(BuiltinUint::U128)),
            "f16" => Some(BuiltinType::Float(BuiltinFloat::F16)),
            "f32" => Some(BuiltinType::Float(BuiltinFloat::F32)),
            "f64" => Some(BuiltinType::Float(BuiltinFloat::F64)),
            "f128" => Some(BuiltinType::Float(BuiltinFloat::F128)),
            _ => None,
        }
    }

    /// The name of a builtin type, as programs write it.
    pub fn as_str(self) -> &'static str
        ensures word { result.now ≡ builtin_word self }
        ensures found { find_name result.now builtin_words ≡ Some self }
    {
        match self {
            BuiltinType::Char => "char",
            BuiltinType::Bool => "bool",
            BuiltinType::Str => "str",
            BuiltinType::Int(int) => int.as_str(),
            BuiltinType::Uint(uint) => uint.as_str(),
            BuiltinType::Float(float) => float.as_str(),
        }
    }
}

/// A builtin type under its name.
fn named(alloc: Global, builtin: BuiltinType) -> Result<(Name, BuiltinType), AllocError>
    ensures { IfOk result (λ named. named ≡ (builtin_word builtin, builtin)) }
{
    Ok((builtin.as_name(alloc)?, builtin))
}

impl AsName for BuiltinType {
    ghost name_of = { builtin_word };

    fn as_name(&self, alloc: Global) -> Result<Name, AllocError> {
        Name::new(alloc, self.as_str())
    }
}

impl BuiltinInt {
    /// The signed integer that a literal's suffix names. Does not allocate.
    pub fn from_suffix(suffix: &str) -> Option<BuiltinInt>
        ensures { result ≡ find_name suffix.now int_words }
    {
        match suffix {
            "isize" => Some(BuiltinInt::Isize),
            "i8" => Some(BuiltinInt::I8),
            "i16" => Some(BuiltinInt::I16),
            "i32" => Some(BuiltinInt::I32),
            "i64" => Some(BuiltinInt::I64),
            "i128" => Some(BuiltinInt::I128),
            _ => None,
        }
    }

    /// The signed integer that a literal's suffix names, as a symbol. Does not allocate.
    pub fn from_suffix_sym(suffix: &Symbol) -> Option<BuiltinInt>
        ensures { result ≡ find_name suffix.now int_words }
    {
        BuiltinInt::from_suffix(suffix.as_str())
    }

    /// The name of a signed integer type.
    pub fn as_str(self) -> &'static str
        ensures word { result.now ≡ int_word self }
        ensures found { find_name result.now int_words ≡ Some self }
    {
        match self {
            BuiltinInt::Isize => "isize",
            BuiltinInt::I8 => "i8",
            BuiltinInt::I16 => "i16",
            BuiltinInt::I32 => "i32",
            BuiltinInt::I64 => "i64",
            BuiltinInt::I128 => "i128",
        }
    }
}

impl BuiltinUint {
    /// The unsigned integer that a literal's suffix names. Does not allocate.
    pub fn from_suffix(suffix: &str) -> Option<BuiltinUint>
        ensures { result ≡ find_name suffix.now uint_words }
    {
        match suffix {
            "usize" => Some(BuiltinUint::Usize),
            "u8" => Some(BuiltinUint::U8),
            "u16" => Some(BuiltinUint::U16),
            "u32" => Some(BuiltinUint::U32),
            "u64" => Some(BuiltinUint::U64),
            "u128" => Some(BuiltinUint::U128),
            _ => None,
        }
    }

    /// The unsigned integer that a literal's suffix names, as a symbol. Does not allocate.
    pub fn from_suffix_sym(suffix: &Symbol) -> Option<BuiltinUint>
        ensures { result ≡ find_name suffix.now uint_words }
    {
        BuiltinUint::from_suffix(suffix.as_str())
    }

    /// The name of an unsigned integer type.
    pub fn as_str(self) -> &'static str
        ensures word { result.now ≡ uint_word self }
        ensures found { find_name result.now uint_words ≡ Some self }
    {
        match self {
            BuiltinUint::Usize => "usize",
            BuiltinUint::U8 => "u8",
            BuiltinUint::U16 => "u16",
            BuiltinUint::U32 => "u32",
            BuiltinUint::U64 => "u64",
            BuiltinUint::U128 => "u128",
        }
    }
}

impl BuiltinFloat {
    /// The float that a literal's suffix names. Does not allocate.
    pub fn from_suffix(suffix: &str) -> Option<BuiltinFloat>
        ensures { result ≡ find_name suffix.now float_words }
    {
        match suffix {
            "f16" => Some(BuiltinFloat::F16),
            "f32" => Some(BuiltinFloat::F32),
            "f64" => Some(BuiltinFloat::F64),
            "f128" => Some(BuiltinFloat::F128),
            _ => None,
        }
    }

    /// The name of a float type.
    pub fn as_str(self) -> &'static str
        ensures word { result.now ≡ float_word self }
        ensures found { find_name result.now float_words ≡ Some self }
    {
        match self {
            BuiltinFloat::F16 => "f16",
            BuiltinFloat::F32 => "f32",
            BuiltinFloat::F64 => "f64",
            BuiltinFloat::F128 => "f128",
        }
    }
}

impl fmt::Display for BuiltinType {
    ghost output = { λ word. Some (builtin_word word) };

    ghost styled_output = { λ word _. Some (builtin_word word) };

    fn fmt<W: fmt::Write>(&self, f: &mut fmt::Formatter<W>) -> fmt::Result {
        f.write_str(BuiltinType::as_str(*self))
    }
}

impl fmt::Display for BuiltinInt {
    ghost output = { λ word. Some (int_word word) };

    ghost styled_output = { λ word _. Some (int_word word) };

    fn fmt<W: fmt::Write>(&self, f: &mut fmt::Formatter<W>) -> fmt::Result {
        f.write_str(BuiltinInt::as_str(*self))
    }
}

impl fmt::Display for BuiltinUint {
    ghost output = { λ word. Some (uint_word word) };

    ghost styled_output = { λ word _. Some (uint_word word) };

    fn fmt<W: fmt::Write>(&self, f: &mut fmt::Formatter<W>) -> fmt::Result {
        f.write_str(BuiltinUint::as_str(*self))
    }
}

impl fmt::Display for BuiltinFloat {
    ghost output = { λ word. Some (float_word word) };

    ghost styled_output = { λ word _. Some (float_word word) };

    fn fmt<W: fmt::Write>(&self, f: &mut fmt::Formatter<W>) -> fmt::Result {
        f.write_str(BuiltinFloat::as_str(*self))
    }
}
