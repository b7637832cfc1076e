//! Which macros of a file are in textual scope, and which are exported.
use indexmap::IndexMap;
use macro_rules::rules::Rules;
use std::alloc::{AllocError, Global};

/// A macro: its rules, and where its name stands in the bytes of all tokens.
pub(crate) struct Definition {
    pub(crate) rules: Rules,
    pub(crate) at: usize,
}

/// A hand-written `Drop`, to keep proofs small: what drops one has one call to prove.
impl Drop for Definition {
    fn drop(self) {
        let Definition {
            rules: _rules,
            at: _at,
        } = self;
    }
}

/// A name that means a macro from here on, and the one that it meant before.
#[derive(Clone, Copy)]
struct Binding {
    name: usize,
    before: Option<usize>,
}

/// The last definition of a name in scope, and the exported one.
#[derive(Clone, Copy)]
struct Meaning {
    in_scope: Option<usize>,
    exported: Option<usize>,
}

/// Bytes of the body of a macro.
#[derive(Clone, Copy)]
struct Body {
    start: usize,
    end: usize,
}

/// The macros by their names.
pub(crate) struct Scopes {
    meanings: IndexMap<Vec<u8>, Meaning>,
    /// What was brought into scope, the last last.
    bindings: Vec<Binding>,
    /// For each module that is open how many bindings there were when it began.
    modules: Vec<usize>,
    /// Where macros are written under `local_inner_macros`.
    bodies: Vec<Body>,
}

/// A hand-written `Drop`, to keep proofs small: what drops one has one call to prove.
impl Drop for Scopes {
    fn drop(self) {
        let Scopes {
            meanings: _meanings,
            bindings: _bindings,
            modules: _modules,
            bodies: _bodies,
        } = self;
    }
}

impl Scopes {
    pub(crate) fn new(alloc: Global) -> Scopes {
        Scopes {
            meanings: IndexMap::new(alloc),
            bindings: Vec::new(alloc),
            modules: Vec::new(alloc),
            bodies: Vec::new(alloc),
        }
    }

    /// The number of a name.
    fn number_of(&mut self, alloc: Global, name: &[u8]) -> Result<usize, AllocError> {
        if let Some(number) = self.meanings.get_index_of(name) {
            return Ok(number);
        }
        let meaning = Meaning {
            in_scope: None,
            exported: None,
        };
        let number = self.meanings.len();
        self.meanings
            .insert(Vec::from_slice(alloc, name)?, meaning)?;
        Ok(number)
    }

    /// Brings a definition into scope.
    pub(crate) fn bind(
        &mut self,
        alloc: Global,
        name: &[u8],
        definition: usize,
    ) -> Result<(), AllocError> {
        let name = self.number_of(alloc, name)?;
        if let Some(meaning) = self.meanings.get_index_mut(name) {
            let before = meaning.in_scope;
            meaning.in_scope = Some(definition);
            self.bindings.push(Binding { name, before })?;
        }
        Ok(())
    }

    /// Exports a definition.
    pub(crate) fn export(
        &mut self,
        alloc: Global,
        name: &[u8],
        definition: usize,
    ) -> Result<(), AllocError> {
        let name = self.number_of(alloc, name)?;
        if let Some(meaning) = self.meanings.get_index_mut(name) {
            meaning.exported = Some(definition);
        }
        Ok(())
    }

    /// Notes where a macro is written whose calls mean exported macros.
    pub(crate) fn add_body(&mut self, start: usize, end: usize) -> Result<(), AllocError> {
        self.bodies.push(Body { start, end })?;
        Ok(())
    }

    /// Whether a byte stands in such a macro.
    pub(crate) fn is_local(&self, at: usize) -> bool {
        self.bodies
            .iter()
            .any(|body| body.start <= at && at < body.end)
    }

    pub(crate) fn begin_module(&mut self) -> Result<(), AllocError> {
        self.modules.push(self.bindings.len())?;
        Ok(())
    }

    /// Takes back the last binding.
    fn unbind(&mut self) {
        if let Some(binding) = self.bindings.pop() {
            if let Some(meaning) = self.meanings.get_index_mut(binding.name) {
                meaning.in_scope = binding.before;
            }
        }
    }

    /// Takes back what was bound since the innermost open module began.
    pub(crate) fn end_module(&mut self) {
        let Some(count) = self.modules.pop() else {
            return;
        };
        for _binding in count..self.bindings.len() {
            self.unbind();
        }
    }

    /// The definition of a name that is in scope.
    pub(crate) fn in_scope(&self, name: &[u8]) -> Option<usize> {
        self.meanings.get(name)?.in_scope
    }

    /// The exported definition of a name.
    pub(crate) fn exported(&self, name: &[u8]) -> Option<usize> {
        self.meanings.get(name)?.exported
    }
}
