//! What numbers of rows stand for.
ghost use Rattle.std.specs.Prelude.{◌≡◌, slice_get};
ghost use Rattle.std.specs.Option.{option_copied};
ghost use Rattle.crate_items.specs.Files as tables;
ghost use Rattle.crate_items.specs.ModuleVisibilities.{lexemes_known};
ghost use Rattle.crate_items.specs.Sources.{source_at};

use crate::files::file_table::FileTable;
use crate::files::source::Source;
use crate::modules::CrateModules;
use dm_base::ids::FileId;
use item_tree::items::Item;
use item_tree::lexer::lexeme::Lexeme;

/// The text of a file; nothing, where there is no such file.
pub(crate) fn text_of(files: &FileTable, file: FileId) -> &[u8]
    ensures { result.now ≡ tables.text_of files.now file }
{
    if files.contains(file) {
        files.text(file)
    } else {
        &[]
    }
}

/// The item of a number.
pub(crate) fn item_at(source: &Source, number: usize) -> Option<Item>
    ensures { result ≡ slice_get source.now.items number }
{
    source.items().get(number).copied()
}

/// The lexemes of a file; none, where the crate has none of it.
pub(crate) fn lexemes_of(list: &CrateModules, file: FileId) -> &[Lexeme]
    ensures { result.now ≡ lexemes_known (source_at list.now.sources file) }
{
    match list.sources().get(file) {
        None => &[],
        Some(source) => source.lexemes(),
    }
}
