//! `Origins`: the filters of the iterators over modules, by module origin.
ghost use Rattle.std.specs.Prelude.{◌≡◌, Bool};
ghost use Rattle.dm_def_map.specs.declared.modules.module_origin.ModuleOrigin.{ModuleOrigin};
ghost use Rattle.dm_def_map.specs.Queries.{fills, is_inline_in};

use crate::modules::module_origin::ModuleOrigin;
use dm_base::ids::{FileId, MacroCallId};

/// A filter of modules by their origin.
pub trait Origins: Copy {
    ghost passes: { Self → ModuleOrigin → Bool };

    fn passes(&self, origin: ModuleOrigin) -> bool
        ensures { result ≡ passes self.now origin };
}

/// The modules that fill a file, under whatever edition.
#[derive(Clone, Copy)]
pub struct FilledBy(pub FileId);

impl Origins for FilledBy {
    ghost passes = { λ by. fills by.0 };

    fn passes(&self, origin: ModuleOrigin) -> bool {
        match origin.file_id() {
            None => false,
            Some(own) => self.0 == own.file_id(),
        }
    }
}

/// The inline modules in the expansion of a macro call.
#[derive(Clone, Copy)]
pub struct InlineIn(pub MacroCallId);

impl Origins for InlineIn {
    ghost passes = { λ by. is_inline_in by.0 };

    fn passes(&self, origin: ModuleOrigin) -> bool {
        match origin {
            ModuleOrigin::Inline {
                definition_tree_id,
                ..
            } => match definition_tree_id.file_id().macro_file() {
                None => false,
                Some(own) => self.0 == own,
            },
            _ => false,
        }
    }
}
