//! What a caller answers that goes from a text to a world.
use crate::tests::same;
use crate::text_to_answer::{meaning_in_first, world_of};
use dm_base::mod_path::{ModPath, PathKind};
use dm_base::name::Name;
use std::alloc::{AllocError, Global};
use std::test::Fail;

/// The path of one name.
fn path_of(alloc: Global, name: &str) -> Result<ModPath, AllocError> {
    let mut segments = Vec::new(alloc);
    segments.push(Name::new(alloc, name)?)?;
    Ok(ModPath::from_segments(PathKind::Plain, segments))
}

/// Whether the world of a text is settled, and in which namespaces its root binds `S`. None where
/// it is not collected.
fn told(alloc: Global, text: &str) -> Result<Option<(bool, bool, bool, bool)>, AllocError> {
    let path = path_of(alloc, "S")?;
    let text = Vec::from_slice(alloc, text.as_bytes())?;
    let Ok(made) = world_of(alloc, text) else {
        return Ok(None);
    };
    let found = meaning_in_first(&made.world, &path);
    Ok(Some((
        made.is_settled,
        found.types.is_some(),
        found.values.is_some(),
        found.macros.is_some(),
    )))
}

#[test]
fn a_struct_is_imported(rt: HostRuntime) -> Result<(), Fail> {
    let text = "use a::S;\nmod a {\n    pub struct S(pub u8);\n}\n";
    let found = told(rt.alloc(), text)?;
    same(&rt, &found, &Some((true, true, true, false)));
    Ok(())
}
