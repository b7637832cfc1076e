//! Kinds of macros: declarative, builtin and procedural ones, and the styles in which they may be called.
ghost use Rattle.std.specs.Prelude.{⊤, ◌≡◌, [], ◌∷◌, codes};
ghost use Rattle.dm_base.specs.Styles.{styles_of, expander_styles, proc_styles};

use bitflags::{Flag, Flags};

/// The styles in which a macro may be called, as bit flags.
#[derive(Clone, Copy, PartialEq, Eq, Hash, Debug)]
pub struct MacroCallStyles(pub u8);

impl MacroCallStyles {
    /// Called as `name!(..)`: a function-like, or bang, macro.
    pub const FN_LIKE: MacroCallStyles = MacroCallStyles(1);

    /// Called as an attribute, `#[name]`.
    pub const ATTR: MacroCallStyles = MacroCallStyles(2);

    /// Called in a `#[derive(..)]`.
    pub const DERIVE: MacroCallStyles = MacroCallStyles(4);

    const FLAGS: &'static [Flag<MacroCallStyles>] = &[
        Flag {
            name: "FN_LIKE",
            value: MacroCallStyles::FN_LIKE,
        },
        Flag {
            name: "ATTR",
            value: MacroCallStyles::ATTR,
        },
        Flag {
            name: "DERIVE",
            value: MacroCallStyles::DERIVE,
        },
    ];
}

impl Flags for MacroCallStyles {
    type Bits = u8;

    ghost exact = { ⊤ };

    ghost table = { (codes "FN_LIKE", 1) ∷ (codes "ATTR", 2) ∷ (codes "DERIVE", 4) ∷ [] };

    ghost set_of = { λ styles. styles.0 };

    fn flags<'a>() -> &'a [Flag<MacroCallStyles>] {
        MacroCallStyles::FLAGS
    }

    fn bits(&self) -> u8 {
        self.0
    }

    fn from_bits_retain(bits: u8) -> MacroCallStyles {
        MacroCallStyles(bits)
    }
}

/// The expander of a macro that `macro` or `macro_rules!` declares: its rules, or the compiler for a builtin macro.
#[derive(Clone, Copy, PartialEq, Eq, Hash, Debug)]
pub enum MacroExpander {
    Declarative { styles: MacroCallStyles },
    BuiltIn,
    BuiltInEager,
    BuiltInAttr,
    BuiltInDerive,
    UnimplementedBuiltIn,
}

impl MacroExpander {
    /// The styles in which a macro of this expander may be called.
    pub fn styles(self) -> MacroCallStyles
        ensures { result ≡ expander_styles self }
    {
        match self {
            MacroExpander::Declarative { styles } => styles,
            MacroExpander::BuiltIn | MacroExpander::BuiltInEager => MacroCallStyles::FN_LIKE,
            MacroExpander::BuiltInAttr => MacroCallStyles::ATTR,
            MacroExpander::BuiltInDerive => MacroCallStyles::DERIVE,
            MacroExpander::UnimplementedBuiltIn => MacroCallStyles::FN_LIKE
                .union(MacroCallStyles::ATTR)
                .union(MacroCallStyles::DERIVE),
        }
    }
}

/// A procedural macro's kind.
#[derive(Clone, Copy, PartialEq, Eq, Hash, Debug)]
pub enum ProcMacroKind {
    CustomDerive,
    Bang,
    Attr,
}

impl ProcMacroKind {
    /// The styles in which a procedural macro of this kind may be called.
    pub fn styles(self) -> MacroCallStyles
        ensures { result ≡ proc_styles self }
    {
        match self {
            ProcMacroKind::CustomDerive => MacroCallStyles::DERIVE,
            ProcMacroKind::Bang => MacroCallStyles::FN_LIKE,
            ProcMacroKind::Attr => MacroCallStyles::ATTR,
        }
    }
}

/// What a macro is: how it was written, and how it is expanded.
#[derive(Clone, Copy, PartialEq, Eq, Hash, Debug)]
pub enum MacroLoc {
    Macro2(MacroExpander),
    MacroRules(MacroExpander),
    Proc(ProcMacroKind),
}

impl MacroLoc {
    /// The styles in which the macro may be called.
    pub fn styles(self) -> MacroCallStyles
        ensures { result ≡ styles_of self }
    {
        match self {
            MacroLoc::Macro2(expander) | MacroLoc::MacroRules(expander) => expander.styles(),
            MacroLoc::Proc(kind) => kind.styles(),
        }
    }
}
