//! The options that build scripts set, by what cargo prints of a build.
use crate::cargo_target::{list_of, text_of};
use crate::failure::Failure;
use crate::plan::CratePlan;
use crate::reading::needed_text;
use serde_json::Value;
use std::alloc::{AllocError, Global};
use std::rt::Files;

/// What the messages about build scripts are marked by.
const RAN: &'static str = "build-script-executed";

/// The message in a line, if it is one about a build script that ran. Lines that are no messages are passed over, as those
/// that the scripts print themselves.
fn message_in(alloc: Global, line: &str) -> Option<Value> {
    if !line.starts_with('{') {
        return None;
    }
    let message = Value::from_str(alloc, line).ok()?;
    if text_of(&message, "reason") == RAN {
        Some(message)
    } else {
        None
    }
}

/// The messages in a text about build scripts that ran.
fn messages_in(alloc: Global, text: &str) -> Result<Vec<Value>, AllocError> {
    let mut messages = Vec::new(alloc);
    for line in text.lines() {
        if let Some(message) = message_in(alloc, line) {
            messages.push(message)?;
        }
    }
    Ok(messages)
}

/// Those in a file; none where no file is named.
pub(crate) fn build_messages<R: Files + AllocGlobal>(
    rt: &R,
    path: Option<&str>,
) -> Result<Vec<Value>, Failure> {
    let Some(path) = path else {
        return Ok(Vec::new(rt.alloc()));
    };
    let text = needed_text(rt, path)?;
    Ok(messages_in(rt.alloc(), text.as_str())?)
}

/// Adds the options that a message names to those of a crate.
fn add_cfgs(plan: &mut CratePlan, message: &Value) -> Result<(), AllocError> {
    for option in list_of(message, "cfgs") {
        if let Some(option) = option.as_str() {
            plan.set(option)?;
        }
    }
    Ok(())
}

/// Adds the options that the build script of a package set to those of a crate of it.
pub(crate) fn add_built(
    plan: &mut CratePlan,
    messages: &[Value],
    id: &str,
) -> Result<(), AllocError> {
    for message in messages {
        if text_of(message, "package_id") == id {
            add_cfgs(plan, message)?;
        }
    }
    Ok(())
}
