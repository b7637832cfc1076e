//! Diagnostics of a def map: what went wrong while it was built.
ghost use Rattle.std.specs.Prelude.{◌≡◌, IfOk, true};
ghost use Rattle.std.specs.Cmp.{partial_equiv_from_equiv};
ghost use Rattle.std.specs.Cmp.Lexicographic.{pointwise, lists_equiv};
ghost use Rattle.std.specs.Slice.Iter.{iter_rest};
ghost use Rattle.dm_scope.specs.SameTexts.{AllSaySame, SaySame, SaysTheSame, diagnostics_same, diagnostics_told, kinds_same, kinds_told, lists_same, lists_told};
ghost use Rattle.dm_scope.specs.contracts.diagnostics.DefDiagnosticEq.TheImpl.Laws.{laws-law};

use dm_base::ids::{
    AttrId, CfgExpr, CfgOptions, ExpandErrorKind, MacroCallKind, ModuleId, UseTreeIdx,
};
use dm_base::mod_path::ModPath;
use dm_base::source::AstId;
use std::alloc::{AllocError, Global};
use std::marker::Model;
use std::rc::Rc;
use std::slice;

/// The kind of a diagnostic, and the AST item that it is reported at.
#[derive(PartialEq, Eq, Drop, Debug)]
pub enum DefDiagnosticKind {
    /// No file is there for a module; the candidates are the paths that were tried.
    UnresolvedModule {
        ast: AstId,
        candidates: Vec<String>,
    },
    /// No crate is there for an `extern crate`.
    UnresolvedExternCrate {
        ast: AstId,
    },
    /// A path of a `use` tree resolves to nothing.
    UnresolvedImport {
        id: AstId,
        index: UseTreeIdx,
    },
    /// An item is left out, since its `cfg` condition does not hold under the options.
    UnconfiguredCode {
        ast_id: AstId,
        cfg: CfgExpr,
        opts: CfgOptions,
    },
    /// The path of a macro call resolves to no macro.
    UnresolvedMacroCall {
        ast: MacroCallKind,
        path: ModPath,
    },
    /// A builtin macro that is not implemented.
    UnimplementedBuiltinMacro {
        ast: AstId,
    },
    /// A derive on an item that is no struct, enum or union.
    InvalidDeriveTarget {
        ast: AstId,
        id: AttrId,
    },
    /// A derive that does not list paths.
    MalformedDerive {
        ast: AstId,
        id: AttrId,
    },
    /// A macro's definition is malformed. There is no constructor function: callers write the variant out.
    MacroDefError {
        ast: AstId,
        message: String,
    },
    /// A macro call could not be expanded.
    MacroError {
        ast: AstId,
        path: ModPath,
        err: ExpandErrorKind,
    },
}

/// A diagnostic, with the module that it is in.
#[derive(PartialEq, Eq, Drop, Debug)]
pub struct DefDiagnostic {
    pub in_module: ModuleId,
    pub kind: DefDiagnosticKind,
}

impl DefDiagnostic {
    /// No file is there for a module.
    pub fn unresolved_module(
        container: ModuleId,
        declaration: AstId,
        candidates: Vec<String>,
    ) -> DefDiagnostic
        ensures { result
            ≡ record {
              in_module = container;
              kind = DefDiagnosticKind.UnresolvedModule declaration candidates;
            } }
    {
        DefDiagnostic {
            in_module: container,
            kind: DefDiagnosticKind::UnresolvedModule {
                ast: declaration,
                candidates,
            },
        }
    }

    /// No crate is there for an `extern crate` item.
    pub fn unresolved_extern_crate(container: ModuleId, declaration: AstId) -> DefDiagnostic
        ensures { result
            ≡ record {
              in_module = container;
              kind = DefDiagnosticKind.UnresolvedExternCrate declaration;
            } }
    {
        DefDiagnostic {
            in_module: container,
            kind: DefDiagnosticKind::UnresolvedExternCrate { ast: declaration },
        }
    }

    /// A path of a `use` tree resolves to nothing.
    pub fn unresolved_import(container: ModuleId, id: AstId, index: UseTreeIdx) -> DefDiagnostic
        ensures { result
            ≡ record { in_module = container; kind = DefDiagnosticKind.UnresolvedImport id index } }
    {
        DefDiagnostic {
            in_module: container,
            kind: DefDiagnosticKind::UnresolvedImport { id, index },
        }
    }

    /// A macro call resolves to a macro, whose expansion fails.
    pub fn macro_error(
        container: ModuleId,
        ast: AstId,
        path: ModPath,
        err: ExpandErrorKind,
    ) -> DefDiagnostic
        ensures { result
            ≡ record { in_module = container; kind = DefDiagnosticKind.MacroError ast path err } }
    {
        DefDiagnostic {
            in_module: container,
            kind: DefDiagnosticKind::MacroError { ast, path, err },
        }
    }

    /// An item is left out, since its `cfg` condition does not hold.
    pub fn unconfigured_code(
        container: ModuleId,
        ast_id: AstId,
        cfg: CfgExpr,
        opts: CfgOptions,
    ) -> DefDiagnostic
        ensures { result
            ≡ record {
              in_module = container;
              kind = DefDiagnosticKind.UnconfiguredCode ast_id cfg opts;
            } }
    {
        DefDiagnostic {
            in_module: container,
            kind: DefDiagnosticKind::UnconfiguredCode { ast_id, cfg, opts },
        }
    }

    /// The path of a macro call resolves to nothing.
    pub fn unresolved_macro_call(
        container: ModuleId,
        ast: MacroCallKind,
        path: ModPath,
    ) -> DefDiagnostic
        ensures { result
            ≡ record
            { in_module = container; kind = DefDiagnosticKind.UnresolvedMacroCall ast path } }
    {
        DefDiagnostic {
            in_module: container,
            kind: DefDiagnosticKind::UnresolvedMacroCall { ast, path },
        }
    }

    /// A macro is declared as a builtin one (`#[rustc_builtin_macro]`), but no such builtin macro is known.
    pub fn unimplemented_builtin_macro(container: ModuleId, ast: AstId) -> DefDiagnostic
        ensures { result
            ≡ record
            { in_module = container; kind = DefDiagnosticKind.UnimplementedBuiltinMacro ast } }
    {
        DefDiagnostic {
            in_module: container,
            kind: DefDiagnosticKind::UnimplementedBuiltinMacro { ast },
        }
    }

    /// A derive stands on an item that is no struct, enum or union.
    pub fn invalid_derive_target(container: ModuleId, ast: AstId, id: AttrId) -> DefDiagnostic
        ensures { result
            ≡ record { in_module = container; kind = DefDiagnosticKind.InvalidDeriveTarget ast id } }
    {
        DefDiagnostic {
            in_module: container,
            kind: DefDiagnosticKind::InvalidDeriveTarget { ast, id },
        }
    }

    /// A derive does not list paths.
    pub fn malformed_derive(container: ModuleId, ast: AstId, id: AttrId) -> DefDiagnostic
        ensures { result
            ≡ record { in_module = container; kind = DefDiagnosticKind.MalformedDerive ast id } }
    {
        DefDiagnostic {
            in_module: container,
            kind: DefDiagnosticKind::MalformedDerive { ast, id },
        }
    }
}

/// Values that are equal exactly where their contents are: of texts the bytes count, and not the capacity.
pub trait SaidEq: Eq {
    ghost SaySame: { Self → Self → Type 0 };

    ghost same: { (x y : Self) → Self.eq x y ≡ true → SaySame x y };

    ghost told: { (x y : Self) → SaySame x y → Self.eq x y ≡ true };
}

impl SaidEq for DefDiagnosticKind {
    ghost SaySame = { SaysTheSame };

    ghost same = { kinds_same };

    ghost told = { kinds_told };
}

impl SaidEq for DefDiagnostic {
    ghost SaySame = { SaySame };

    ghost same = { diagnostics_same };

    ghost told = { diagnostics_told };
}

/// The diagnostics of a def map, which contracts see as a list. Clones share it.
#[derive(Drop, Debug)]
pub struct DefDiagnostics {
    shared: Rc<Vec<DefDiagnostic>>,
}

impl Model for DefDiagnostics {
    ghost use Rattle.std.specs.Prelude.{List};
    ghost use Rattle.dm_scope.specs.declared.diagnostics.DefDiagnostic.{DefDiagnostic};

    ghost Value = { List DefDiagnostic };

    ghost view = { λ d. d.shared.value.items };
}

impl DefDiagnostics {
    /// These diagnostics, in order. Where the allocation fails, they are dropped.
    pub fn new(alloc: Global, diagnostics: Vec<DefDiagnostic>) -> Result<DefDiagnostics, AllocError>
        ensures { IfOk result (λ d. d ≡ diagnostics.items) }
    {
        let shared = Rc::new(alloc, diagnostics)?;
        Ok(DefDiagnostics { shared })
    }

    /// The diagnostics, in order. Does not allocate.
    pub fn iter(&self) -> slice::Iter<'_, DefDiagnostic>
        ensures { iter_rest result ≡ self.now }
    {
        self.shared.as_slice().iter()
    }
}

impl PartialEq for DefDiagnostics {
    ghost eq = { pointwise ⟦<DefDiagnostic as PartialEq>⟧.eq };

    ghost laws = { partial_equiv_from_equiv (lists_equiv laws-law) };

    fn eq(&self, other: &DefDiagnostics) -> bool {
        self.shared.as_slice() == other.shared.as_slice()
    }
}

impl Eq for DefDiagnostics {
    ghost laws = { lists_equiv laws-law };
}

impl SaidEq for DefDiagnostics {
    ghost SaySame = { AllSaySame };

    ghost same = { lists_same };

    ghost told = { lists_told };
}

impl Clone for DefDiagnostics {
    ghost is_clone = { λ d copy. copy ≡ d };

    /// The same list, shared. Fails where the reference count cannot grow.
    fn clone(&self) -> Result<DefDiagnostics, AllocError> {
        let shared = self.shared.clone()?;
        Ok(DefDiagnostics { shared })
    }
}
