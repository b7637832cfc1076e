//! What is declared a second time under a name.
use crate::settled::Settled;
use def_diagnostics::duplicates::duplicates;
use def_diagnostics::message::{Message, message_of};
use defmap_answers::crates::{Crates, asked_crates};
use defmap_answers::places::Spot;
use defmap_answers::unresolved::Told;
use dm_base::ids::Crate;
use std::alloc::{AllocError, Global};

/// A message of a place.
fn told_of(alloc: Global, message: &Message) -> Result<Told, AllocError> {
    let text = String::from_str(alloc, message.text.as_str())?;
    let spot = Spot {
        file: message.file,
        offset: message.offset,
    };
    Ok(Told::new(Some(spot), text))
}

/// Adds what a crate declares a second time.
fn add_crate(
    told: &mut Vec<Told>,
    alloc: Global,
    settled: &Settled,
    krate: Crate,
) -> Result<(), AllocError> {
    let number = krate.0 as usize;
    let (Some(list), Some(items)) = (settled.lists().get(number), settled.items().get(number))
    else {
        return Ok(());
    };
    for second in duplicates(alloc, list, settled.files(), items.as_slice())?.iter() {
        let message = message_of(alloc, list, second)?;
        told.push(told_of(alloc, &message)?)?;
    }
    Ok(())
}

/// Adds what the crates that are asked about declare a second time.
pub(crate) fn add_second_declarations(
    told: &mut Vec<Told>,
    alloc: Global,
    settled: &Settled,
) -> Result<(), AllocError> {
    for krate in &asked_crates(alloc, settled)? {
        add_crate(told, alloc, settled, *krate)?;
    }
    Ok(())
}
