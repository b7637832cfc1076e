//! The types that plain inherent implementations are of: `impl<T> a::S<T> {..}` is one of `a::S`.
use crate_items::files::source::Source;
use item_tree::lexer::lexeme::{Delimiter, Lexeme, LexemeKind};
use item_tree::lexer::word::Word;
use std::alloc::{AllocError, Global};

/// What stands from a lexeme on.
#[derive(Drop)]
struct Header<'a> {
    text: &'a str,
    lexemes: &'a [Lexeme],
    partners: &'a [usize],
    at: usize,
}

impl<'a> Header<'a> {
    fn lexeme(&self) -> Option<Lexeme> {
        self.lexemes.get(self.at).copied()
    }

    fn kind(&self) -> Option<LexemeKind> {
        match self.lexeme() {
            None => None,
            Some(lexeme) => Some(lexeme.kind),
        }
    }

    fn go(&mut self) {
        self.at = self.at.saturating_add(1);
    }

    /// Whether the `>` that stands here is that of an arrow.
    fn ends_arrow(&self) -> bool {
        let before = self.lexemes.get(self.at.saturating_sub(1));
        match (before, self.lexeme()) {
            (Some(before), Some(here)) => {
                matches!(before.kind, LexemeKind::Mark(b'-' | b'='))
                    && before.start.saturating_add(before.len) == here.start
            }
            _ => false,
        }
    }

    /// How deep in angle brackets what is behind a lexeme stands, and whether these go on.
    fn depth_behind(&self, depth: u32) -> u32 {
        match self.kind() {
            Some(LexemeKind::Mark(b'<')) => depth.saturating_add(1),
            Some(LexemeKind::Mark(b'>')) if !self.ends_arrow() => depth.saturating_sub(1),
            _ => depth,
        }
    }

    /// Goes behind a lexeme, or behind the group that it opens.
    fn go_behind(&mut self) {
        if let Some(LexemeKind::Open(_)) = self.kind() {
            let partner = self.partners.get(self.at).copied();
            self.at = partner.unwrap_or(self.at).max(self.at);
        }
        self.go();
    }

    /// Goes behind what stands here in angle brackets, if anything does.
    fn skip_generics(&mut self) {
        let mut depth = 0;
        for _lexeme in 0..self.lexemes.len() {
            depth = self.depth_behind(depth);
            if depth == 0 && self.kind() != Some(LexemeKind::Mark(b'>')) {
                break;
            }
            self.go_behind();
            if depth == 0 {
                break;
            }
        }
    }

    /// The text of the lexeme here.
    fn written(&self) -> &'a str {
        match self.lexeme() {
            None => "",
            Some(lexeme) => {
                let behind = lexeme.start.saturating_add(lexeme.len);
                self.text.get(lexeme.start..behind).unwrap_or("")
            }
        }
    }

    /// The path that stands here, as it is written: names and colons. Two names side by side are none.
    fn path(&mut self, alloc: Global) -> Result<String, AllocError> {
        let mut path = String::new(alloc);
        let mut is_behind_name = false;
        for _lexeme in 0..self.lexemes.len() {
            let is_name = match self.kind() {
                Some(LexemeKind::Word(word)) => word != Word::Where,
                Some(LexemeKind::Mark(b':')) => false,
                _ => break,
            };
            if is_name && is_behind_name {
                return Ok(String::new(alloc));
            }
            if !is_name && matches!(self.kind(), Some(LexemeKind::Word(_))) {
                break;
            }
            path.push_str(self.written())?;
            is_behind_name = is_name;
            self.go();
        }
        Ok(path)
    }

    /// Whether a header ends here.
    fn ends(&self) -> bool {
        matches!(
            self.kind(),
            Some(LexemeKind::Open(Delimiter::Brace) | LexemeKind::Word(Word::Where))
        )
    }
}

/// The path of the type that an inherent implementation of a text is of. None where that is no path.
pub fn self_path(
    alloc: Global,
    text: &str,
    source: &Source,
    item: usize,
) -> Result<Option<String>, AllocError> {
    let Some(written) = source.items().get(item) else {
        return Ok(None);
    };
    let mut header = Header {
        text,
        lexemes: source.lexemes(),
        partners: source.partners(),
        at: written.word,
    };
    header.go();
    header.skip_generics();
    let path = header.path(alloc)?;
    header.skip_generics();
    Ok(if header.ends() { Some(path) } else { None })
}
