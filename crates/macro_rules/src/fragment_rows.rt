//! How far fragments go: what rustc does.
ghost use Rattle.macro_rules.specs.FragmentRows as rows;

/// Extents of paths.
pub fn paths()
    ensures a_path_has_arguments { rows.a_path_has_arguments }
    ensures a_path_begins_with_colons { rows.a_path_begins_with_colons }
    ensures a_path_of_a_function { rows.a_path_of_a_function }
    ensures a_path_parts_a_shift { rows.a_path_parts_a_shift }
    ensures a_path_ends_before_a_bang { rows.a_path_ends_before_a_bang }
    ensures a_path_ends_before_braces { rows.a_path_ends_before_braces }
    ensures a_type_that_is_a_path { rows.a_type_that_is_a_path }
{}

/// Extents of types.
pub fn types()
    ensures a_reference { rows.a_reference }
    ensures a_pointer { rows.a_pointer }
    ensures two_references { rows.two_references }
    ensures groups { rows.groups }
    ensures a_slice { rows.a_slice }
    ensures never { rows.never }
    ensures a_hole { rows.a_hole }
    ensures a_function { rows.a_function }
    ensures a_binder { rows.a_binder }
    ensures bounds { rows.bounds }
    ensures a_trait_object { rows.a_trait_object }
    ensures a_qualified_path { rows.a_qualified_path }
    ensures a_comparison_in_braces { rows.a_comparison_in_braces }
    ensures a_macro { rows.a_macro }
    ensures a_type_parts_a_shift { rows.a_type_parts_a_shift }
    ensures a_type_parts_two_shifts { rows.a_type_parts_two_shifts }
    ensures a_type_parts_a_comparison { rows.a_type_parts_a_comparison }
    ensures a_type_parts_an_assignment { rows.a_type_parts_an_assignment }
    ensures no_bounds_in_a_reference { rows.no_bounds_in_a_reference }
    ensures no_bounds_behind_an_arrow { rows.no_bounds_behind_an_arrow }
    ensures a_type_ends_before_a_name { rows.a_type_ends_before_a_name }
    ensures a_fragment_has_no_bounds { rows.a_fragment_has_no_bounds }
    ensures a_path_has_bounds { rows.a_path_has_bounds }
{}

/// Extents of metas.
pub fn metas()
    ensures a_meta_has_a_value { rows.a_meta_has_a_value }
    ensures a_meta_has_a_group { rows.a_meta_has_a_group }
    ensures a_meta_is_unsafe { rows.a_meta_is_unsafe }
    ensures a_meta_has_no_angles { rows.a_meta_has_no_angles }
{}

/// Extents of expressions.
pub fn expressions()
    ensures operators { rows.operators }
    ensures a_method_has_arguments { rows.a_method_has_arguments }
    ensures a_closure { rows.a_closure }
    ensures a_closure_with_a_block { rows.a_closure_with_a_block }
    ensures closures { rows.closures }
    ensures a_condition { rows.a_condition }
    ensures a_head_has_no_fields { rows.a_head_has_no_fields }
    ensures heads_nest { rows.heads_nest }
    ensures a_pattern_in_a_head { rows.a_pattern_in_a_head }
    ensures a_loop { rows.a_loop }
    ensures a_match { rows.a_match }
    ensures fields { rows.fields }
    ensures a_borrow { rows.a_borrow }
    ensures an_assignment { rows.an_assignment }
    ensures a_cast { rows.a_cast }
    ensures a_return { rows.a_return }
    ensures nothing_returned { rows.nothing_returned }
    ensures a_range { rows.a_range }
    ensures an_open_range { rows.an_open_range }
    ensures an_expression_ends_before_an_arrow { rows.an_expression_ends_before_an_arrow }
    ensures an_expression_ends_before_a_name { rows.an_expression_ends_before_a_name }
    ensures an_expression_goes_on { rows.an_expression_goes_on }
    ensures a_path_fragment_has_no_fields { rows.a_path_fragment_has_no_fields }
{}

/// Extents of patterns.
pub fn patterns()
    ensures bars { rows.bars }
    ensures a_pattern_in_a_name { rows.a_pattern_in_a_name }
    ensures a_range_of_literals { rows.a_range_of_literals }
    ensures a_range_of_paths { rows.a_range_of_paths }
    ensures an_open_range_pattern { rows.an_open_range_pattern }
    ensures a_struct_pattern { rows.a_struct_pattern }
    ensures a_qualified_pattern { rows.a_qualified_pattern }
    ensures a_pattern_ends_before_if { rows.a_pattern_ends_before_if }
    ensures a_pattern_ends_before_a_name { rows.a_pattern_ends_before_a_name }
    ensures a_literal_fragment { rows.a_literal_fragment }
    ensures no_bars { rows.no_bars }
{}

/// Extents of statements.
pub fn statements()
    ensures a_let { rows.a_let }
    ensures a_block_ends_a_statement { rows.a_block_ends_a_statement }
    ensures a_block_with_a_method { rows.a_block_with_a_method }
    ensures a_macro_ends_a_statement { rows.a_macro_ends_a_statement }
    ensures a_macro_goes_on { rows.a_macro_goes_on }
    ensures an_item { rows.an_item }
    ensures an_unsafe_block { rows.an_unsafe_block }
    ensures a_semicolon { rows.a_semicolon }
    ensures a_name_like_an_item { rows.a_name_like_an_item }
{}

/// Extents of items.
pub fn items()
    ensures a_struct { rows.a_struct }
    ensures a_function_with_a_body { rows.a_function_with_a_body }
    ensures braces_in_angles { rows.braces_in_angles }
    ensures a_constant { rows.a_constant }
    ensures an_implementation { rows.an_implementation }
    ensures a_macro_call { rows.a_macro_call }
    ensures a_definition { rows.a_definition }
    ensures externs { rows.externs }
    ensures a_visibility_fragment { rows.a_visibility_fragment }
    ensures a_body_fragment { rows.a_body_fragment }
{}
