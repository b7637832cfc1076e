//! Names of files as text, where they are none.
use std::alloc::{AllocError, Global};
use std::fmt::Write;

/// Adds bytes, each as `\x` and two digits.
fn push_bytes(shown: &mut String, bytes: &[u8]) -> Result<(), AllocError> {
    for byte in bytes {
        write!(shown, "\\x{byte:02x}")?;
    }
    Ok(())
}

/// A name as text: what of it is no UTF-8 is escaped, each byte as `\xff`.
pub(crate) fn shown_name(alloc: Global, name: &[u8]) -> Result<String, AllocError> {
    let mut shown = String::new(alloc);
    for chunk in name.utf8_chunks() {
        shown.push_str(chunk.valid())?;
        push_bytes(&mut shown, chunk.invalid())?;
    }
    Ok(shown)
}
