//! What a caller lists of a text.
use crate::tests::same;
use defmap_callers::listing::{Listing, listed, name_of};
use std::alloc::{AllocError, Global};
use std::fmt::Write;
use std::test::Fail;

/// The public items of a listing, each with its kind and its name, in a line.
fn shown(alloc: Global, text: &[u8], listing: &Listing) -> Result<String, AllocError> {
    let mut out = String::new(alloc);
    for item in &listing.public {
        let name = name_of(text, listing.lexemes.as_slice(), *item);
        let name = std::str::from_utf8(name).unwrap_or("?");
        write!(out, "{:?} {name}\n", item.kind)?;
    }
    Ok(out)
}

#[test]
fn public_items_behind_those_of_the_modules_around(rt: HostRuntime) -> Result<(), Fail> {
    let text =
        "pub mod a { pub fn f() {} fn g() {} pub(crate) struct S;\n    pub mod b { pub use c; pub struct r#T; } }\nmod d { pub const C: u8 = 1; }\n";
    let listing = listed(rt.alloc(), text.as_bytes())?;
    let found = shown(rt.alloc(), text.as_bytes(), &listing)?;
    let wanted = "Mod a\nFunction f\nMod b\nConst C\nUse \nStruct T\n";
    same(&rt, &found.as_str(), &wanted);
    Ok(())
}
