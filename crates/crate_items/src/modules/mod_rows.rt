//! Where files of modules are looked for, by the examples of The Rust Reference.
ghost use Rattle.crate_items.specs.ModRows as rows;

/// Modules in files of both kinds, with `#[path]` and without, inline or not.
pub fn files_of_modules()
    ensures plain_in_other { rows.PlainInOther }
    ensures plain_in_owner { rows.PlainInOwner }
    ensures children_of_both { rows.ChildrenOfBoth }
    ensures path_in_other { rows.PathInOther }
    ensures path_in_owner { rows.PathInOwner }
    ensures path_in_inline_of_other { rows.PathInInlineOfOther }
    ensures path_in_inline_of_owner { rows.PathInInlineOfOwner }
    ensures path_of_inline_of_other { rows.PathOfInlineOfOther }
    ensures path_of_inline_of_owner { rows.PathOfInlineOfOwner }
    ensures children_of_path { rows.ChildrenOfPath }
    ensures raw_name { rows.RawName }
    ensures raw_inline { rows.RawInline }
    ensures dots { rows.Dots }
    ensures above_root { rows.AboveRoot }
    ensures inline_folders { rows.InlineFolders }
{}
