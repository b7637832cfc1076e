//! Messages: what is told of a byte of a file.
ghost use Rattle.std.specs.Prelude.{◌≡◌, ◌++◌, ◌∷◌, [], IfOk, OnErr, OnOk, map};
ghost use Rattle.def_diagnostics.specs.Lines as spec;

use crate::diagnostic::Diagnostic;
use crate::offsets::place_offset;
use crate::texts::kind_text;
use crate_items::modules::CrateModules;
use dm_base::ids::FileId;
use std::alloc::{AllocError, Global};
use std::marker::Model;

/// A text, and the byte of a file that it is about. A contract sees the bytes of the text.
pub struct Message {
    pub file: FileId,
    pub offset: usize,
    pub text: String,
}

/// Hand-written `Drop`, to keep proofs small: dropping one is then a single call.
impl Drop for Message {
    fn drop(self) {
        let Message {
            file: _file,
            offset: _offset,
            text: _text,
        } = self;
    }
}

impl Model for Message {
    ghost use Rattle.std.specs.Prelude.{string_bytes};
    ghost use Rattle.def_diagnostics.specs.Lines.{Told};

    ghost Value = { Told };

    ghost view = { λ m. record { file = m.file; offset = m.offset; text = string_bytes m.text } };
}

/// A diagnostic of a crate as a message.
///
/// # Errors
///
/// Fails only where memory runs out.
pub fn message_of(
    alloc: Global,
    list: &CrateModules,
    diagnostic: &Diagnostic,
) -> Result<Message, AllocError>
    ensures { IfOk result (λ message. message ≡ spec.message_of list.now diagnostic.now) }
{
    let offset = place_offset(alloc, list, diagnostic.file, diagnostic.place)?;
    let text = kind_text(alloc, &diagnostic.kind)?;
    Ok(Message {
        file: diagnostic.file,
        offset,
        text,
    })
}

/// Adds diagnostics of a crate as messages, in their order.
///
/// # Errors
///
/// Fails only where memory runs out: then those of the first diagnostics may be added, and nothing else is.
pub fn push_messages(
    messages: &mut Vec<Message>,
    alloc: Global,
    list: &CrateModules,
    diagnostics: &[Diagnostic],
) -> Result<(), AllocError>
    ensures all { OnOk result (messages.new.items ≡
        messages.old.items ++ map (spec.message_of list.now) diagnostics.now) }
    ensures some { OnErr result
        (spec.AddsSome list.now messages.old.items diagnostics.now messages.new.items) }
{
    for diagnostic in diagnostics {
        let message = message_of(alloc, list, diagnostic)?;
        messages.push(message)?;
    }
    Ok(())
}
