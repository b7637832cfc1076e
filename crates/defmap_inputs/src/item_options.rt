//! The options that a table of a file is made with.
use crate::arguments::Arguments;
use crate::cfg_file::{add_option, cfg_line};
use crate::failure::{Failure, Status};
use item_tree::cfg::CfgOptions;
use std::alloc::Global;

/// The failure of a word that is no option.
fn no_option<T>(alloc: Global, word: &str) -> Result<T, Failure> {
    let told = format!(in alloc; "no option {word}: give --cfg NAME or --cfg NAME=\"VALUE\"")?;
    Err(Failure::Told(Status::Misused, told))
}

/// Adds the options that are given.
fn add_options(
    options: &mut CfgOptions,
    alloc: Global,
    given: &Arguments<'_>,
) -> Result<(), Failure> {
    for word in &given.cfgs {
        match cfg_line(*word) {
            None => return no_option(alloc, *word),
            Some(option) => add_option(options, alloc, option)?,
        }
    }
    Ok(())
}

/// The options that are given, and no other. Fails where one is none, and where memory runs out.
pub fn item_options(alloc: Global, given: &Arguments<'_>) -> Result<CfgOptions, Failure> {
    let mut options = CfgOptions::new(alloc);
    add_options(&mut options, alloc, given)?;
    Ok(options)
}
