//! The dump of a scope, as text.
ghost use Rattle.std.specs.Prelude.{◌≡◌, ◌++◌, OnOk, OnErr, IfOk, map, string_bytes};
ghost use Rattle.std.specs.List.{flat_map};
ghost use Rattle.dm_scope.specs.Dumps.{Text, Appends, IsDump, mark, style_marks, macro_word, type_text, value_text, macro_text, bound_text, name_text, unnamed_line, name_line, legacies, legacy_line};
ghost use Rattle.dm_scope.specs.Sorted.{AreInOrder, seen};

use super::ItemScope;
use super::sorted::resolution_of;
use crate::name_order::sorted_names;
use crate::scope_tables::ScopeTables;
use bitflags::Flags;
use dm_base::ids::TraitId;
use dm_base::imports::{ImportId, ImportOrExternCrate};
use dm_base::item_ids::MacroId;
use dm_base::macros::MacroCallStyles;
use dm_base::name::Name;
use dm_base::per_ns::{MacrosItem, PerNs, TypesItem, ValuesItem};
use dm_base::visibility::Visibility;
use std::alloc::AllocError;

impl ItemScope {
    /// Adds the dump of this scope to a text (docs/RULES.md, "Dumps").
    ///
    /// Fails where memory runs out, and then the text is as before.
    pub fn dump<T: ScopeTables>(&self, tables: &T, buf: &mut String) -> Result<(), AllocError>
        ensures ok { OnOk result
            ((text : Text) × IsDump (T.tables tables.now) self.now text
            × (string_bytes buf.new ≡ string_bytes buf.old ++ text)) }

        // A scope has one dump: it is this text that is added.
        ensures exact { (text : Text) → IsDump (T.tables tables.now) self.now text
            → OnOk result (string_bytes buf.new ≡ string_bytes buf.old ++ text) }
        ensures err { OnErr result (string_bytes buf.new ≡ string_bytes buf.old) }
    {
        let names = self.sorted_names()?;
        let legacy = self.sorted_legacy_names()?;
        let mut text = String::new(self.alloc);
        write_unnamed(&mut text, tables, self.rare.unnamed_traits())?;
        self.write_names(&mut text, tables, names.as_slice())?;
        self.write_legacy(&mut text, tables, legacy.as_slice())?;
        buf.push_str(text.as_str())?;
        Ok(())
    }

    /// The names of legacy macros, in order of their bytes.
    fn sorted_legacy_names(&self) -> Result<Vec<&Name>, AllocError>
        ensures { IfOk result (λ v. AreInOrder (seen v.items) (map (λ e. e.0) self.now.legacy_macros)) }
    {
        let names = self.rare.legacy_macros().keys().as_slice();
        let sorted = sorted_names(names.iter(), self.alloc)?;
        Ok(sorted)
    }

    /// Adds the lines of names.
    fn write_names<T: ScopeTables>(
        &self,
        text: &mut String,
        tables: &T,
        names: &[&Name],
    ) -> Result<(), AllocError>
        ensures { Appends text.old text.new
            (flat_map (name_line (T.tables tables.now) self.now) (seen names.now)) result }
    {
        for name in names {
            self.write_name_line(text, tables, *name)?;
        }
        Ok(())
    }

    /// Adds the line of a name.
    fn write_name_line<T: ScopeTables>(
        &self,
        text: &mut String,
        tables: &T,
        name: &Name,
    ) -> Result<(), AllocError>
        ensures { Appends text.old text.new (name_line (T.tables tables.now) self.now name.now) result }
    {
        text.push_str("- ")?;
        write_name(text, tables, name)?;
        text.push_str(" :")?;
        write_bound(text, tables, self.get(name))?;
        text.push_str("\n")?;
        Ok(())
    }

    /// Adds the lines of legacy macros.
    fn write_legacy<T: ScopeTables>(
        &self,
        text: &mut String,
        tables: &T,
        names: &[&Name],
    ) -> Result<(), AllocError>
        ensures { Appends text.old text.new
            (flat_map (legacy_line (T.tables tables.now) self.now) (seen names.now)) result }
    {
        for name in names {
            self.write_legacy_line(text, tables, *name)?;
        }
        Ok(())
    }

    /// Adds the line of a name's legacy macros.
    fn write_legacy_line<T: ScopeTables>(
        &self,
        text: &mut String,
        tables: &T,
        name: &Name,
    ) -> Result<(), AllocError>
        ensures { Appends text.old text.new (legacy_line (T.tables tables.now) self.now name.now) result }
    {
        text.push_str("- (legacy) ")?;
        write_name(text, tables, name)?;
        text.push_str(" :")?;
        write_macros(text, tables, self.legacy_macros_of(name))?;
        text.push_str("\n")?;
        Ok(())
    }

    /// The legacy macros of a name, in order of definition.
    fn legacy_macros_of(&self, name: &Name) -> &[MacroId]
        ensures { result.now ≡ legacies self.now name.now }
    {
        self.get_legacy_macro(name).unwrap_or(&[])
    }
}

/// Adds the lines of traits that were imported without a name.
fn write_unnamed<T: ScopeTables>(
    text: &mut String,
    tables: &T,
    traits: &[(TraitId, Visibility, Option<ImportId>)],
) -> Result<(), AllocError>
    ensures { Appends text.old text.new (flat_map (unnamed_line (T.tables tables.now)) traits.now) result }
{
    for unnamed in traits {
        write_unnamed_line(text, tables, unnamed)?;
    }
    Ok(())
}

/// Adds the line of a trait that was imported without a name.
fn write_unnamed_line<T: ScopeTables>(
    text: &mut String,
    tables: &T,
    unnamed: &(TraitId, Visibility, Option<ImportId>),
) -> Result<(), AllocError>
    ensures { Appends text.old text.new (unnamed_line (T.tables tables.now) unnamed.now) result }
{
    text.push_str("- _ :")?;
    write_bound(text, tables, resolution_of(unnamed))?;
    text.push_str("\n")?;
    Ok(())
}

/// Adds a name.
fn write_name<T: ScopeTables>(text: &mut String, tables: &T, name: &Name) -> Result<(), AllocError>
    ensures { Appends text.old text.new (name_text (T.tables tables.now) name.now) result }
{
    text.push_str(if tables.prints_raw(name) { "r#" } else { "" })?;
    text.push_str(name.as_str())?;
    Ok(())
}

/// Adds what a name is bound to.
fn write_bound<T: ScopeTables>(text: &mut String, tables: &T, res: PerNs) -> Result<(), AllocError>
    ensures { Appends text.old text.new (bound_text (T.tables tables.now) res) result }
{
    write_type(text, res.types)?;
    write_value(text, res.values)?;
    write_macro(text, tables, res.macros)?;
    text.push_str(if res.is_none() { " _" } else { "" })?;
    Ok(())
}

/// Adds what a name is bound to as a type.
fn write_type(text: &mut String, item: Option<TypesItem>) -> Result<(), AllocError>
    ensures { Appends text.old text.new (type_text item) result }
{
    let Some(item) = item else {
        return Ok(());
    };
    text.push_str(" type")?;
    text.push_str(mark(item.import))?;
    Ok(())
}

/// Adds what a name is bound to as a value.
fn write_value(text: &mut String, item: Option<ValuesItem>) -> Result<(), AllocError>
    ensures { Appends text.old text.new (value_text item) result }
{
    let Some(item) = item else {
        return Ok(());
    };
    text.push_str(" value")?;
    text.push_str(mark(item.import.map(ImportOrExternCrate::from)))?;
    Ok(())
}

/// Adds what a name is bound to as a macro.
fn write_macro<T: ScopeTables>(
    text: &mut String,
    tables: &T,
    item: Option<MacrosItem>,
) -> Result<(), AllocError>
    ensures { Appends text.old text.new (macro_text (T.tables tables.now) item) result }
{
    let Some(item) = item else {
        return Ok(());
    };
    write_macro_word(text, tables, item.def)?;
    text.push_str(mark(item.import))?;
    Ok(())
}

/// Adds the words of macros.
fn write_macros<T: ScopeTables>(
    text: &mut String,
    tables: &T,
    macros: &[MacroId],
) -> Result<(), AllocError>
    ensures { Appends text.old text.new (flat_map (macro_word (T.tables tables.now)) macros.now) result }
{
    for id in macros {
        write_macro_word(text, tables, *id)?;
    }
    Ok(())
}

/// Adds the word of a macro.
fn write_macro_word<T: ScopeTables>(
    text: &mut String,
    tables: &T,
    id: MacroId,
) -> Result<(), AllocError>
    ensures { Appends text.old text.new (macro_word (T.tables tables.now) id) result }
{
    text.push_str(" macro")?;
    text.push_str(style_marks(tables.macro_styles(id)))?;
    Ok(())
}

/// The mark of an import.
fn mark(import: Option<ImportOrExternCrate>) -> &'static str
    ensures { result.now ≡ mark import }
{
    match import {
        None => "",
        Some(ImportOrExternCrate::Import(_)) => " (import)",
        Some(ImportOrExternCrate::Glob(_)) => " (glob)",
        Some(ImportOrExternCrate::ExternCrate(_)) => " (extern)",
    }
}

/// The marks of how a macro may be called.
fn style_marks(styles: MacroCallStyles) -> &'static str
    ensures { result.now ≡ style_marks styles }
{
    let function_like = styles.contains(MacroCallStyles::FN_LIKE);
    let on_items = styles.contains(MacroCallStyles::ATTR)
        || styles.contains(MacroCallStyles::DERIVE);
    match (function_like, on_items) {
        (true, true) => "!#",
        (true, false) => "!",
        (false, true) => "#",
        (false, false) => "",
    }
}
