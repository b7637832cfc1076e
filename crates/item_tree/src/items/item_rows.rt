//! What the definitions of partners, items and use trees say of texts that are easy to read wrongly.
ghost use Rattle.std.specs.Prelude.{◌≡◌, Some, None, [], ◌∷◌, false, true};
ghost use Rattle.item_tree.specs.ItemRows as rows;
ghost use Rattle.item_tree.specs.declared.items.expected.Expected.TheVariants as expected;
ghost use Rattle.item_tree.specs.UseGrammar.{IsUseTree, leaves, lexemes_of};
ghost use Rattle.item_tree.specs.UseLeaves.{leaves_of};
ghost use Rattle.item_tree.specs.declared.items.item_kind.ItemKind.TheVariants as item;
ghost use Rattle.item_tree.specs.declared.items.use_tree.UseTreeKind.TheVariants as tree;

/// Items by their kind, the ends of attributes and visibility, the places of word and name, and their end.
pub fn difficult_items()
    ensures qualified { rows.qualified ≡ rows.parts item.Function 2 4 8 (Some 9) 12 }
    ensures unnamed { rows.unnamed ≡ rows.parts item.Const 0 0 0 (Some 1) 7 }
    ensures union_call { rows.union_call ≡ rows.parts item.MacroCall 0 0 0 None 3 }
    ensures union_item { rows.union_item ≡ rows.parts item.Union 0 0 0 (Some 1) 3 }
    ensures braces_in_angles { rows.braces_in_angles ≡ rows.parts item.Impl 0 0 0 None 6 }
    ensures arrow_in_angles { rows.arrow_in_angles ≡ rows.parts item.Function 0 0 0 (Some 1) 13 }
    ensures rules { rows.rules ≡ rows.parts item.MacroRules 0 0 0 (Some 2) 5 }
    ensures call { rows.call ≡ rows.parts item.MacroCall 0 0 0 None 8 }
    ensures inner { rows.inner ≡ rows.parts item.InnerAttribute 0 0 0 None 3 }
    ensures attributes_alone { rows.attributes_alone ≡ rows.parts item.Error 2 2 2 None 2 }
{}

/// Items with braces that are no body, attributes within, and qualifiers that are new.
pub fn items_with_more_within()
    ensures for_a_macro { rows.for_a_macro ≡ rows.parts item.Impl 0 0 0 None 7 }
    ensures macros_in_header { rows.macros_in_header ≡ rows.parts item.Function 0 0 0 (Some 1) 15 }
    ensures never_returns { rows.never_returns ≡ rows.parts item.Function 0 0 0 (Some 1) 7 }
    ensures for_never { rows.for_never ≡ rows.parts item.Impl 0 0 0 None 5 }
    ensures where_attributes { rows.where_attributes ≡ rows.parts item.Struct 0 0 0 (Some 1) 15 }
    ensures value_attributes { rows.value_attributes ≡ rows.parts item.Const 0 0 0 (Some 1) 13 }
    ensures cut_where { rows.cut_where ≡ rows.cut item.Struct (Some 1) 6 expected.Body }
    ensures type_const { rows.type_const ≡ rows.parts item.Const 0 0 0 (Some 2) 8 }
    ensures all_qualifiers { rows.all_qualifiers ≡ rows.parts item.Function 0 0 5 (Some 6) 9 }
    ensures const_auto_trait { rows.const_auto_trait ≡ rows.parts item.Trait 0 0 2 (Some 3) 5 }
    ensures const_auto { rows.const_auto ≡ rows.parts item.Const 0 0 0 (Some 1) 5 }
{}

/// Where members end, whose values have commas and angle brackets.
pub fn difficult_members()
    ensures arguments { rows.arguments ≡ 11 }
    ensures qualified_path { rows.qualified_path ≡ 15 }
    ensures cast { rows.cast ≡ 15 }
    ensures comparison { rows.comparison ≡ 5 }
    ensures shift { rows.shift ≡ 6 }
    ensures closure { rows.closure ≡ 22 }
    ensures unsafe_field { rows.unsafe_field ≡ 2 }
{}

/// Implementations with a `for` that stands between a trait and its type, or begins a type.
pub fn difficult_implementations()
    ensures for_a_function { rows.for_a_function ≡ true }
    ensures behind_an_arrow { rows.behind_an_arrow ≡ true }
    ensures for_in_bounds { rows.for_in_bounds ≡ false }
    ensures for_behind_plus { rows.for_behind_plus ≡ false }
{}

/// Items that miss their end, and end where another begins.
pub fn items_without_end()
    ensures of_use { rows.cut_use ≡ rows.cut item.Use None 5 expected.Semicolon }
    ensures of_crate { rows.cut_crate ≡ rows.cut item.ExternCrate (Some 2) 3 expected.Semicolon }
    ensures of_const { rows.cut_const ≡ rows.cut item.Const (Some 1) 10 expected.Semicolon }
    ensures of_type { rows.cut_type ≡ rows.cut item.TypeAlias (Some 1) 15 expected.Semicolon }
    ensures of_struct { rows.cut_struct ≡ rows.cut item.Struct (Some 1) 3 expected.Body }
    ensures of_static { rows.cut_static ≡ rows.cut item.Static (Some 1) 9 expected.Semicolon }
    ensures of_function { rows.cut_function ≡ rows.cut item.Function (Some 1) 13 expected.Body }
    ensures of_level { rows.cut_level ≡ rows.cut item.Function (Some 1) 3 expected.Body }
    ensures of_call { rows.cut_call ≡ rows.cut item.MacroCall None 3 expected.Semicolon }
    ensures of_rules { rows.cut_rules ≡ rows.cut item.MacroRules (Some 2) 3 expected.Group }
{}

/// The arms of a `cfg_if!`, and what is none behind the last.
pub fn arms_of_cfg_if()
    ensures { rows.arms ≡ rows.arm 0 4 7 ∷ rows.arm 7 12 14 ∷ rows.arm 14 15 17 ∷ rows.no_arm 17 ∷ [] }
{}

/// The arms of a `cfg_select!` with commas, and what is none.
pub fn arms_of_cfg_select()
    ensures arms { rows.select_arms ≡ rows.select_arm 0 0 3 8 (rows.between 6 7)
        ∷ rows.select_arm 8 9 10 14 (rows.between 13 13) ∷ rows.select_arm 14 15 15 15 None ∷ [] }
    ensures no_braces { rows.no_select_arms ≡ rows.no_arm 0 ∷ rows.no_arm 1 ∷ rows.no_arm 2
        ∷ rows.no_arm 3 ∷ [] }
{}

/// Partners of delimiters that are closed by another kind, or not at all.
pub fn difficult_groups()
    ensures partners { rows.partners ≡ 7 ∷ 5 ∷ 2 ∷ 4 ∷ 3 ∷ 1 ∷ 6 ∷ 0 ∷ [] }
    ensures unclosed { rows.unclosed ≡ 2 ∷ 1 ∷ 0 ∷ [] }
{}

/// Use trees in lists.
pub fn difficult_uses()
    ensures { rows.nested_use ≡ rows.leaf tree.Prefixed None 0 3 None 4 ∷ rows.leaf tree.Single (Some 0) 4 5 None 5 ∷ rows.leaf tree.Single (Some 0) 6 7 (Some 8) 9 ∷ rows.leaf tree.Glob (Some 0) 10 10 None 11 ∷ [] }
{}

/// Those use trees by the grammar: it writes the same lexemes, and says that they import the same.
pub fn grammar_of_a_use()
    ensures grammar { IsUseTree rows.written_use }
    ensures lexemes { lexemes_of rows.written_use ≡ rows.nested_lexemes }
    ensures imports { leaves_of rows.nested_lexemes rows.nested_use ≡ leaves [] rows.written_use }
{}
