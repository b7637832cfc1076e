//! The paths at which the file of a module was looked for.
ghost use Rattle.std.specs.Prelude.{◌≡◌, ◌++◌, ◌∷◌, [], IfOk, OnOk, map};
ghost use Rattle.def_diagnostics.specs.CandidatePaths.{bytes_of, path_of, paths_of};

use crate_items::modules::mod_resolution::Candidate;
use std::alloc::{AllocError, Global};
use std::marker::Model;

/// Paths of files, which contracts see as a list.
pub struct CandidatePaths {
    pub(crate) paths: Vec<Vec<u8>>,
}

/// Hand-written `Drop`, to keep proofs small: dropping one is then a single call.
impl Drop for CandidatePaths {
    fn drop(self) {
        let CandidatePaths { paths: _paths } = self;
    }
}

impl Model for CandidatePaths {
    ghost use Rattle.std.specs.Prelude.{ℕ, List, map};
    ghost use Rattle.def_diagnostics.specs.CandidatePaths.{bytes_of};

    ghost Value = { List (List ℕ) };

    ghost view = { λ c. map bytes_of c.paths.items };
}

/// Adds the path of a candidate.
fn push_path(
    paths: &mut Vec<Vec<u8>>,
    alloc: Global,
    candidate: &Candidate,
) -> Result<(), AllocError>
    ensures { OnOk result
        (map bytes_of paths.new.items ≡ map bytes_of paths.old.items ++ path_of candidate.now ∷ []) }
{
    let path = Vec::from_slice(alloc, candidate.path())?;
    paths.push(path)?;
    Ok(())
}

/// Adds the paths of candidates.
pub(crate) fn push_paths(
    paths: &mut Vec<Vec<u8>>,
    alloc: Global,
    candidates: &[Candidate],
) -> Result<(), AllocError>
    ensures { OnOk result
        (map bytes_of paths.new.items ≡ map bytes_of paths.old.items ++ paths_of candidates.now) }
{
    for candidate in candidates {
        push_path(paths, alloc, candidate)?;
    }
    Ok(())
}

impl CandidatePaths {
    /// Those of some candidates.
    ///
    /// # Errors
    ///
    /// Fails only where memory runs out.
    pub fn of(alloc: Global, candidates: &[Candidate]) -> Result<CandidatePaths, AllocError>
        ensures { IfOk result (λ paths. paths ≡ paths_of candidates.now) }
    {
        let mut paths = Vec::new(alloc);
        push_paths(&mut paths, alloc, candidates)?;
        Ok(CandidatePaths { paths })
    }

    /// The paths, in order.
    pub fn paths(&self) -> &[Vec<u8>]
        ensures { map bytes_of result.now ≡ self.now }
    {
        self.paths.as_slice()
    }
}
