//! Paths as bytes with slashes. The path of a folder is empty or ends in a slash.
ghost use Rattle.std.specs.Prelude.{◌≡◌, ◌<◌, ◌≤◌, ◌+◌, ◌++◌, drop, position, length, IfOk, IfSome, OnOk};
ghost use Rattle.crate_items.specs.Paths as spec;

use std::alloc::{AllocError, Global};

/// Some pieces as one path.
pub(crate) fn joined(
    alloc: Global,
    folder: &[u8],
    own: &[u8],
    name: &[u8],
    end: &[u8],
) -> Result<Vec<u8>, AllocError>
    ensures { IfOk result (λ path. path.items ≡ folder.now ++ own.now ++ name.now ++ end.now) }
{
    let mut path = Vec::from_slice(alloc, folder)?;
    path.extend_from_slice(own)?;
    path.extend_from_slice(name)?;
    path.extend_from_slice(end)?;
    Ok(path)
}

/// How many bytes there are through the last slash.
#[tactic(auto, using(crate::proofs::PathLemmas::suffixes))]
fn folder_len(path: &[u8]) -> usize
    ensures within { result ≤ length path.now }
    ensures exact { result ≡ spec.folder_len path.now }
{
    let mut len = path.len();
    while len > 0 && path[len - 1] != b'/' {
        len -= 1;
    }
    len
}

/// The folder that a file is in: its path through the last slash.
pub(crate) fn folder_of(path: &[u8]) -> &[u8]
    ensures { result.now ≡ spec.folder_of path.now }
{
    &path[..folder_len(path)]
}

/// What stands behind the last slash.
pub(crate) fn file_name(path: &[u8]) -> &[u8]
    ensures { result.now ≡ spec.file_name path.now }
{
    &path[folder_len(path)..]
}

/// The path of a folder without the slash at its end.
fn without_slash(folder: &[u8]) -> &[u8]
    ensures { result.now ≡ spec.without_slash folder.now }
{
    if folder.is_empty() {
        return folder;
    }
    &folder[..folder.len() - 1]
}

/// Whether a path begins at the root.
pub(crate) fn is_absolute(path: &[u8]) -> bool
    ensures { result ≡ spec.is_absolute path.now }
{
    path.starts_with(b"/")
}

/// Goes from a folder to the one that it is in.
#[tactic(auto, unfolding(crate::specs::Paths::above))]
fn go_up(folder: &mut Vec<u8>) -> Result<(), AllocError>
    ensures { OnOk result (folder.new.items ≡ spec.above folder.old.items) }
{
    if folder.as_slice() == b"/".as_slice() {
        return Ok(());
    }
    let inner = without_slash(folder.as_slice());
    if folder.is_empty() || file_name(inner) == b"..".as_slice() {
        folder.extend_from_slice(b"../")?;
    } else {
        let len = folder_of(inner).len();
        folder.truncate(len);
    }
    Ok(())
}

/// Goes from a folder where a component of a path leads.
#[tactic(auto, unfolding(crate::specs::Paths::entered))]
fn enter(folder: &mut Vec<u8>, component: &[u8]) -> Result<(), AllocError>
    ensures { OnOk result (folder.new.items ≡ spec.entered folder.old.items component.now) }
{
    if component.is_empty() || component == b".".as_slice() {
        return Ok(());
    }
    if component == b"..".as_slice() {
        return go_up(folder);
    }
    folder.extend_from_slice(component)?;
    folder.extend_from_slice(b"/")?;
    Ok(())
}

/// The place of the first slash.
fn first_slash(path: &[u8]) -> Option<usize>
    ensures within { IfSome result (λ k. k < length path.now) }
    ensures exact { result ≡ position spec.is_slash path.now }
{
    path.iter().position(|byte| *byte == b'/')
}

/// What stands behind a place.
fn behind(path: &[u8], place: usize) -> &[u8]
    requires { place < length path.now }
    ensures { result.now ≡ drop (place + 1) path.now }
{
    &path[place + 1..]
}

/// Goes from a folder where a path leads.
#[tactic(auto, using(crate::proofs::PathLemmas::parts))]
pub(crate) fn enter_all(folder: &mut Vec<u8>, path: &[u8]) -> Result<(), AllocError>
    ensures { OnOk result (folder.new.items ≡ spec.entered_all folder.old.items path.now) }
{
    let mut rest = path;
    'components: while let Some(slash) = first_slash(rest) {
        enter(folder, &rest[..slash])?;
        rest = behind(rest, slash);
    }
    let entered = enter(folder, rest)?;
    Ok(entered)
}
