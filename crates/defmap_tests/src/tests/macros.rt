//! What macros by example make of calls: as rustc does, of these texts.
use crate::tests::same;
use dm_base::edition::Edition;
use item_tree::lexer::span::piece;
use macro_rules::expand::{Expansion, Limits, expand};
use macro_rules::rules::read_rules;
use macro_rules::token::{Home, Token};
use macro_rules::tokens::read_tokens;
use std::alloc::{AllocError, Global};
use std::fmt::Write;
use std::test::Fail;

/// The most bytes that a text has here.
const LENGTH: usize = 1_000;

/// The tokens of a text, of those bytes of it that are looked at.
fn read(alloc: Global, bytes: &mut Vec<u8>, text: &str) -> Result<Vec<Token>, AllocError> {
    if LENGTH < text.len() || LENGTH < bytes.len() {
        return Ok(Vec::new(alloc));
    }
    read_tokens(alloc, bytes, text.as_bytes(), Edition::Edition2021)
}

/// The texts of the tokens that were written, or the fault.
fn shown(alloc: Global, bytes: &[u8], found: &Expansion) -> Result<String, AllocError> {
    let mut out = String::new(alloc);
    match found.fault() {
        Some(fault) => write!(out, "{fault:?}")?,
        None => {
            for token in found.tokens() {
                let text = std::str::from_utf8(piece(bytes, token.span)).unwrap_or("?");
                write!(out, "{text} ")?;
            }
        }
    }
    Ok(out)
}

/// What a macro of these rules makes of a call.
fn made(alloc: Global, definition: &str, call: &str) -> Result<String, AllocError> {
    let mut bytes = Vec::new(alloc);
    let definition = read(alloc, &mut bytes, definition)?;
    let call = read(alloc, &mut bytes, call)?;
    let home = Home {
        krate: 0,
        edition: Edition::Edition2021,
    };
    let rules = read_rules(alloc, home, bytes.as_slice(), definition.as_slice())?;
    let limits = Limits {
        turns: 100,
        steps: 1_000,
    };
    let found = expand(
        alloc,
        bytes.as_slice(),
        rules.rules(),
        call.as_slice(),
        limits,
    )?;
    shown(alloc, bytes.as_slice(), &found)
}

#[test]
fn a_list_is_written_name_by_name(rt: HostRuntime) -> Result<(), Fail> {
    let definition = "($($a:ident $b:ty),* $(,)?) => { $(struct $a { x: $b })* }";
    let found = made(rt.alloc(), definition, "A u8, B u16,")?;
    same(
        &rt,
        &found.as_str(),
        &"struct A { x :  u8  } struct B { x :  u16  } ",
    );
    Ok(())
}

#[test]
fn an_ambiguous_call_is_not_handed_on(rt: HostRuntime) -> Result<(), Fail> {
    let definition = "($($a:ident)* b) => { struct One; } ; ($($t:tt)*) => { struct Two; }";
    let found = made(rt.alloc(), definition, "a b")?;
    same(&rt, &found.as_str(), &"Ambiguous(1)");
    Ok(())
}
