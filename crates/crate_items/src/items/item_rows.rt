//! Items of a small file, and what use trees import: worked rows.
ghost use Rattle.crate_items.specs.ItemRows as rows;

/// What is in an `extern` block and in an implementation, where paths begin, and the names that are bound.
pub fn items_of_a_small_file()
    ensures homes { rows.Homes }
    ensures paths { rows.Paths }
    ensures no_paths { rows.NoPaths }
    ensures imports { rows.Imports }
    ensures empty_list { rows.EmptyList }
    ensures inner_list { rows.InnerList }
    ensures list_of_nothing { rows.ListOfNothing }
{}
