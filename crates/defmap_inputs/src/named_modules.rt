//! The files that the words of a file name, whatever `cfg` and macros make of these words.
use crate_items::modules::mod_resolution::{Candidate, ModDir};
use dm_base::name::Name;
use dm_base::source::Edition;
use item_tree::lexer::lexeme::{Delimiter, Lexeme, LexemeKind, read_lexemes};
use item_tree::lexer::span::{Span, name_text, piece, string_text};
use item_tree::lexer::word::Word;
use std::alloc::{AllocError, Global};

/// A file that may be that of a module, and where those of its own modules are looked for.
pub(crate) struct NamedFile {
    pub(crate) path: Vec<u8>,
    pub(crate) dir: ModDir,
}

/// A hand-written `Drop`, to keep proofs small: what drops one has one call to prove.
impl Drop for NamedFile {
    fn drop(self) {
        let NamedFile {
            path: _path,
            dir: _dir,
        } = self;
    }
}

/// A file, as its words are gone over.
struct Walk<'a> {
    alloc: Global,
    text: &'a [u8],
    lexemes: &'a [Lexeme],
    /// Where the files of its modules are looked for.
    dir: &'a ModDir,
    /// Where what it includes is.
    beside: ModDir,
    /// The same of the inline modules around a word, each with how many braces are open in it.
    inner: Vec<(usize, ModDir)>,
    /// How many braces are open.
    depth: usize,
    /// What the attributes before a word say of paths.
    paths: Vec<&'a [u8]>,
    found: Vec<NamedFile>,
}

/// A hand-written `Drop`, to keep proofs small: what drops one has one call to prove.
impl<'a> Drop for Walk<'a> {
    fn drop(self) {
        let Walk {
            alloc: _alloc,
            text: _text,
            lexemes: _lexemes,
            dir: _dir,
            beside: _beside,
            inner: _inner,
            depth: _depth,
            paths: _paths,
            found: _found,
        } = self;
    }
}

fn span_of(lexeme: Lexeme) -> Span {
    Span {
        start: lexeme.start,
        len: lexeme.len,
    }
}

/// Whether a word is a macro that reads a file.
fn includes(word: &[u8]) -> bool {
    word == b"include".as_slice()
        || word == b"include_str".as_slice()
        || word == b"include_bytes".as_slice()
}

impl<'a> Walk<'a> {
    fn kind(&self, place: usize) -> Option<LexemeKind> {
        Some(self.lexemes.get(place)?.kind)
    }

    /// The name that stands at a place.
    fn name(&self, place: usize) -> Result<Option<Name>, AllocError> {
        let Some(lexeme) = self.lexemes.get(place) else {
            return Ok(None);
        };
        if !matches!(lexeme.kind, LexemeKind::Word(_)) {
            return Ok(None);
        }
        match std::str::from_utf8(name_text(self.text, span_of(*lexeme))) {
            Ok(text) => Ok(Some(Name::new(self.alloc, text)?)),
            Err(_error) => Ok(None),
        }
    }

    /// What the string at a place has between its quotes.
    fn string(&self, place: usize) -> Option<&'a [u8]> {
        let lexeme = self.lexemes.get(place)?;
        match lexeme.kind {
            LexemeKind::Str => Some(string_text(self.text, span_of(*lexeme))),
            _ => None,
        }
    }

    /// Where the files of modules are looked for that are declared here.
    fn here(&self) -> &ModDir {
        match self.inner.last() {
            None => self.dir,
            Some((_depth, dir)) => dir,
        }
    }

    /// Adds what may be the file of a module.
    fn add(&mut self, name: &Name, candidates: &[Candidate]) -> Result<(), AllocError> {
        for candidate in candidates {
            self.found.push(NamedFile {
                path: Vec::from_slice(self.alloc, candidate.path())?,
                dir: candidate.mod_dir(self.alloc, name)?,
            })?;
        }
        Ok(())
    }

    /// Goes over `mod name;`, whose file may be at each path of its attributes.
    fn meet_outline(&mut self, name: &Name) -> Result<(), AllocError> {
        let paths = std::mem::replace(&mut self.paths, Vec::new(self.alloc));
        for path in &paths {
            let candidates = self.here().candidates(self.alloc, name, Some(*path))?;
            self.add(name, candidates.as_slice())?;
        }
        let candidates = self.here().candidates(self.alloc, name, None)?;
        self.add(name, candidates.as_slice())
    }

    /// Goes into `mod name {`.
    fn meet_inline(&mut self, name: &Name) -> Result<(), AllocError> {
        let path = self.paths.first().copied();
        let dir = self.here().descend_into_definition(self.alloc, name, path)?;
        self.inner.push((self.depth.saturating_add(1), dir))?;
        Ok(())
    }

    /// Goes over the word `mod` at a place.
    fn meet_mod(&mut self, place: usize) -> Result<(), AllocError> {
        let Some(name) = self.name(place.saturating_add(1))? else {
            return Ok(());
        };
        match self.kind(place.saturating_add(2)) {
            Some(LexemeKind::Mark(b';')) => self.meet_outline(&name),
            Some(LexemeKind::Open(Delimiter::Brace)) => self.meet_inline(&name),
            _ => Ok(()),
        }
    }

    /// Goes over the word `path` at a place.
    fn meet_path(&mut self, place: usize) -> Result<(), AllocError> {
        if self.kind(place.saturating_add(1)) != Some(LexemeKind::Mark(b'=')) {
            return Ok(());
        }
        if let Some(path) = self.string(place.saturating_add(2)) {
            self.paths.push(path)?;
        }
        Ok(())
    }

    /// Goes over another word at a place: a macro may read a file.
    fn meet_word(&mut self, place: usize, lexeme: Lexeme) -> Result<(), AllocError> {
        let is_call = self.kind(place.saturating_add(1)) == Some(LexemeKind::Mark(b'!'));
        if !is_call || !includes(piece(self.text, span_of(lexeme))) {
            return Ok(());
        }
        let Some(path) = self.string(place.saturating_add(3)) else {
            return Ok(());
        };
        let name = Name::new(self.alloc, "include")?;
        let candidates = self.beside.candidates(self.alloc, &name, Some(path))?;
        self.add(&name, candidates.as_slice())
    }

    /// Leaves a brace.
    fn close(&mut self) {
        self.depth = self.depth.saturating_sub(1);
        if let Some((depth, _dir)) = self.inner.last() {
            if *depth > self.depth {
                self.inner.pop();
            }
        }
        self.paths.clear();
    }

    /// Goes over the lexeme at a place.
    fn meet(&mut self, place: usize, lexeme: Lexeme) -> Result<(), AllocError> {
        match lexeme.kind {
            LexemeKind::Word(Word::Mod) => return self.meet_mod(place),
            LexemeKind::Word(Word::Path) => return self.meet_path(place),
            LexemeKind::Word(_) => return self.meet_word(place, lexeme),
            LexemeKind::Open(Delimiter::Brace) => {
                self.depth = self.depth.saturating_add(1);
                self.paths.clear();
            }
            LexemeKind::Close(Delimiter::Brace) => self.close(),
            LexemeKind::Mark(b';') => self.paths.clear(),
            _ => {}
        }
        Ok(())
    }

    /// Goes over all lexemes.
    fn meet_all(&mut self) -> Result<(), AllocError> {
        for (place, lexeme) in self.lexemes.iter().enumerate() {
            self.meet(place, *lexeme)?;
        }
        Ok(())
    }

    fn into_found(self) -> Vec<NamedFile> {
        let Walk {
            alloc: _alloc,
            text: _text,
            lexemes: _lexemes,
            dir: _dir,
            beside: _beside,
            inner: _inner,
            depth: _depth,
            paths: _paths,
            found,
        } = self;
        found
    }
}

/// The files that a file of a path names by `mod name;`, by the paths of attributes before that, and by `include!` and its
/// like. The files of its modules are looked for at `dir`.
pub(crate) fn named_in(
    alloc: Global,
    edition: Edition,
    text: &[u8],
    path: &[u8],
    dir: &ModDir,
) -> Result<Vec<NamedFile>, AllocError> {
    let lexemes = read_lexemes(alloc, text, edition)?;
    let mut walk = Walk {
        alloc,
        text,
        lexemes: lexemes.as_slice(),
        dir,
        beside: ModDir::root(alloc, path)?,
        inner: Vec::new(alloc),
        depth: 0,
        paths: Vec::new(alloc),
        found: Vec::new(alloc),
    };
    walk.meet_all()?;
    Ok(walk.into_found())
}
