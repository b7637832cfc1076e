//! Modes of path resolution: how builtin types and modules shadow one another, and which kind of macro is expected.
ghost use Rattle.std.proofs.Common.{rules};

use dm_base::value_eq::ValueEq;

/// Whether a module of its name shadows a builtin type.
#[derive(Clone, Copy, PartialEq, Eq, Debug)]
pub enum BuiltinShadowMode {
    /// Modules, like all types in scope, shadow builtin types.
    Module,
    /// Builtin types go before modules of their name, but other types shadow them.
    Other,
}

/// The sub-namespaces of macros: a path to a macro is resolved in the one that fits how it is called.
#[derive(Clone, Copy, PartialEq, Eq)]
pub enum MacroSubNs {
    /// Function-like (bang) macros, `name!(..)`.
    Bang,
    /// Attributes and derives.
    Attr,
}

impl ValueEq for BuiltinShadowMode {
    ghost same = { Prim.search rules };
}

impl ValueEq for MacroSubNs {
    ghost same = { Prim.search rules };
}
