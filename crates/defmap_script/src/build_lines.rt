//! Parses the lines that add to a builder.
ghost use Rattle.std.specs.Prelude.{◌≡◌, ◌∷◌};
ghost use Rattle.std.specs.Option.{option_map};
ghost use Rattle.defmap_script.specs.BuildLines.{added, addition, crate_line, module_line, block_line, use_line, item_line, variant_line, macro_line, prelude_line, macro_use_line, extern_line, legacy_line, raw_line, rules_line};
ghost use Rattle.defmap_script.specs.Lines.{words_left};

use crate::build_words::{MapName, extern_crate, macro_id, macro_loc, map_name, shape, version};
use crate::lines::Words;
use crate::words::{edition, item_kind, number, visibility};
use dm_base::fields_shape::FieldsShape;
use dm_base::ids::{Crate, EnumId, ExternCrateId, FileAstId, FileId, ModuleId};
use dm_base::item_ids::{ItemKind, MacroId};
use dm_base::macros::MacroLoc;
use dm_base::source::Edition;
use dm_base::visibility::Visibility;
use dm_maps::rules::Rules;

/// What a line adds to a builder, or sets in it.
#[derive(Clone, Copy)]
pub(crate) enum Addition<'a> {
    Crate {
        edition: Edition,
        file: FileId,
    },
    Module {
        parent: ModuleId,
        name: &'a str,
        visibility: Visibility,
    },
    Block {
        containing: ModuleId,
        block: FileAstId,
    },
    Use {
        module: ModuleId,
    },
    Item {
        kind: ItemKind,
        module: ModuleId,
    },
    Variant {
        of: EnumId,
        name: &'a str,
        shape: FieldsShape,
    },
    Macro {
        module: ModuleId,
        loc: MacroLoc,
    },
    Prelude {
        map: MapName,
        module: ModuleId,
    },
    MacroUse {
        map: MapName,
        name: &'a str,
        id: MacroId,
        by: Option<ExternCrateId>,
    },
    Extern {
        krate: Crate,
        name: &'a str,
        module: ModuleId,
        by: Option<ExternCrateId>,
    },
    Legacy {
        module: ModuleId,
        name: &'a str,
        id: MacroId,
    },
    Raw {
        name: &'a str,
    },
    Rules {
        version: Rules,
    },
}

/// The addition of a first word and the words behind it.
pub(crate) fn addition_of<'a>(first: &str, words: Words<'a>) -> Option<Addition<'a>>
    ensures { option_map added result ≡ addition (first.now ∷ words_left words.entry) }
{
    match first {
        "crate" => crate_line(words),
        "module" => module_line(words),
        "block" => block_line(words),
        "use" => use_line(words),
        "item" => item_line(words),
        "variant" => variant_line(words),
        "macro" => macro_line(words),
        "prelude" => prelude_line(words),
        "macrouse" => macro_use_line(words),
        "extern" => extern_line(words),
        "legacy" => legacy_line(words),
        "raw" => raw_line(words),
        "rules" => rules_line(words),
        _ => None,
    }
}

/// `crate EDITION FILE`, behind its first word.
fn crate_line(mut words: Words<'_>) -> Option<Addition<'_>>
    ensures { option_map added result ≡ crate_line (words_left words.entry) }
{
    let edition = edition(words.next()?)?;
    let file = FileId(number(words.next()?)?);
    words.end()?;
    Some(Addition::Crate { edition, file })
}

/// `module MODULE NAME VIS`, behind its first word.
fn module_line(mut words: Words<'_>) -> Option<Addition<'_>>
    ensures { option_map added result ≡ module_line (words_left words.entry) }
{
    let parent = ModuleId(number(words.next()?)?);
    let name = words.next()?;
    let visibility = visibility(words.next()?)?;
    words.end()?;
    Some(Addition::Module {
        parent,
        name,
        visibility,
    })
}

/// `block MODULE AST`, behind its first word.
fn block_line(mut words: Words<'_>) -> Option<Addition<'_>>
    ensures { option_map added result ≡ block_line (words_left words.entry) }
{
    let containing = ModuleId(number(words.next()?)?);
    let block = FileAstId(number(words.next()?)?);
    words.end()?;
    Some(Addition::Block { containing, block })
}

/// `use MODULE`, behind its first word.
fn use_line(mut words: Words<'_>) -> Option<Addition<'_>>
    ensures { option_map added result ≡ use_line (words_left words.entry) }
{
    let module = ModuleId(number(words.next()?)?);
    words.end()?;
    Some(Addition::Use { module })
}

/// `item KIND MODULE`, behind its first word.
fn item_line(mut words: Words<'_>) -> Option<Addition<'_>>
    ensures { option_map added result ≡ item_line (words_left words.entry) }
{
    let kind = item_kind(words.next()?)?;
    let module = ModuleId(number(words.next()?)?);
    words.end()?;
    Some(Addition::Item { kind, module })
}

/// `variant ENUM NAME SHAPE`, behind its first word.
fn variant_line(mut words: Words<'_>) -> Option<Addition<'_>>
    ensures { option_map added result ≡ variant_line (words_left words.entry) }
{
    let of = EnumId(number(words.next()?)?);
    let name = words.next()?;
    let shape = shape(words.next()?)?;
    words.end()?;
    Some(Addition::Variant { of, name, shape })
}

/// `macro macro2|rules|proc MODULE STYLE`, behind its first word.
fn macro_line(mut words: Words<'_>) -> Option<Addition<'_>>
    ensures { option_map added result ≡ macro_line (words_left words.entry) }
{
    let kind = words.next()?;
    let module = ModuleId(number(words.next()?)?);
    let loc = macro_loc(kind, words.next()?)?;
    words.end()?;
    Some(Addition::Macro { module, loc })
}

/// `prelude MAP MODULE`, behind its first word.
fn prelude_line(mut words: Words<'_>) -> Option<Addition<'_>>
    ensures { option_map added result ≡ prelude_line (words_left words.entry) }
{
    let map = map_name(words.next()?)?;
    let module = ModuleId(number(words.next()?)?);
    words.end()?;
    Some(Addition::Prelude { map, module })
}

/// `macrouse MAP NAME MACRO X`, behind its first word.
fn macro_use_line(mut words: Words<'_>) -> Option<Addition<'_>>
    ensures { option_map added result ≡ macro_use_line (words_left words.entry) }
{
    let map = map_name(words.next()?)?;
    let name = words.next()?;
    let id = macro_id(words.next()?)?;
    let by = extern_crate(words.next()?)?;
    words.end()?;
    Some(Addition::MacroUse { map, name, id, by })
}

/// `extern CRATE NAME MODULE X`, behind its first word.
fn extern_line(mut words: Words<'_>) -> Option<Addition<'_>>
    ensures { option_map added result ≡ extern_line (words_left words.entry) }
{
    let krate = Crate(number(words.next()?)?);
    let name = words.next()?;
    let module = ModuleId(number(words.next()?)?);
    let by = extern_crate(words.next()?)?;
    words.end()?;
    Some(Addition::Extern {
        krate,
        name,
        module,
        by,
    })
}

/// `legacy MODULE NAME MACRO`, behind its first word.
fn legacy_line(mut words: Words<'_>) -> Option<Addition<'_>>
    ensures { option_map added result ≡ legacy_line (words_left words.entry) }
{
    let module = ModuleId(number(words.next()?)?);
    let name = words.next()?;
    let id = macro_id(words.next()?)?;
    words.end()?;
    Some(Addition::Legacy { module, name, id })
}

/// `raw NAME`, behind its first word.
fn raw_line(mut words: Words<'_>) -> Option<Addition<'_>>
    ensures { option_map added result ≡ raw_line (words_left words.entry) }
{
    let name = words.next()?;
    words.end()?;
    Some(Addition::Raw { name })
}

/// `rules 1|2`, behind its first word.
fn rules_line(mut words: Words<'_>) -> Option<Addition<'_>>
    ensures { option_map added result ≡ rules_line (words_left words.entry) }
{
    let version = version(words.next()?)?;
    words.end()?;
    Some(Addition::Rules { version })
}
