//! Modules of small crates, how items stand, and whom visibilities show: worked rows.
ghost use Rattle.crate_items.specs.ModuleRows as rows;

/// Files that are there or not, arms of a `cfg_if!` and a `cfg_select!`, tests, paths of visibilities and of modules, and
/// modules without preludes.
pub fn modules_of_small_crates()
    ensures file_by_path { rows.FileByPath }
    ensures one_file { rows.OneFile }
    ensures two_files { rows.TwoFiles }
    ensures no_file { rows.NoFile }
    ensures within_itself { rows.WithinItself }
    ensures inline { rows.Inline }
    ensures arms { rows.Arms }
    ensures select_arms { rows.SelectArms }
    ensures shown { rows.Shown }
    ensures shown_in_2015 { rows.ShownIn2015 }
    ensures shown_in_one_form { rows.ShownInOneForm }
    ensures wrong { rows.Wrong }
    ensures wrong_in_2015 { rows.WrongIn2015 }
    ensures path_within { rows.PathWithin }
    ensures tests { rows.Tests }
    ensures bare_modules { rows.BareModules }
    ensures path_of_file { rows.PathOfFile }
{}
