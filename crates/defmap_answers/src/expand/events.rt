//! What is met among the items of some tokens: definitions of macros, calls, and modules that keep their macros.
use crate::expand::token_text::TokenText;
use crate_items::files::source::Source;
use crate_items::modules::standing::Standing;
use dm_base::edition::Edition;
use item_tree::attributes::attribute_kind::AttributeKind;
use item_tree::attributes::is_active;
use item_tree::attributes::item_attributes::{inner_attributes, outer_attributes};
use item_tree::cfg::CfgOptions;
use item_tree::items::item_kind::ItemKind;
use item_tree::items::{Item, Range};
use item_tree::lexer::children::children_of;
use item_tree::lexer::lexeme::{Lexeme, LexemeKind};
use item_tree::lexer::span::string_text;
use macro_rules::token::Token;
use std::alloc::{AllocError, Global};

/// How texts are read.
#[derive(Clone, Copy)]
pub(crate) struct Reading<'o> {
    pub(crate) edition: Edition,
    pub(crate) options: &'o CfgOptions,
}

/// What is met.
#[derive(Clone, Copy, PartialEq, Eq, Debug)]
pub(crate) enum Met {
    Definition,
    Call,
    /// A module begins whose macros are in scope in it alone.
    Begin,
    End,
}

/// What is met in which order. Of a definition and a call it has the places of the tokens: those of the name or the path, those in
/// the group, and what is behind it.
#[derive(Clone, Copy)]
pub(crate) struct Event {
    place: usize,
    pub(crate) met: Met,
    pub(crate) path: Range,
    pub(crate) group: Range,
    pub(crate) behind: usize,
    pub(crate) is_exported: bool,
    /// Whether it is `macro_export(local_inner_macros)`.
    pub(crate) is_local: bool,
}

/// Tokens that are read as items.
pub(crate) struct ReadItems {
    text: TokenText,
    source: Source,
    count: usize,
}

/// A hand-written `Drop`, to keep proofs small: what drops one has one call to prove.
impl Drop for ReadItems {
    fn drop(self) {
        let ReadItems {
            text: _text,
            source: _source,
            count: _count,
        } = self;
    }
}

fn is_of_macro_use(kind: AttributeKind) -> bool {
    matches!(kind, AttributeKind::MacroUse | AttributeKind::MacroUseOf(_))
}

/// The end of a module, or its begin.
fn border(place: usize, met: Met) -> Event {
    let nothing = Range {
        first: 0,
        behind: 0,
    };
    Event {
        place,
        met,
        path: nothing,
        group: nothing,
        behind: 0,
        is_exported: false,
        is_local: false,
    }
}

/// Where an event stands in the order of all: of a module that ends where an item begins the end comes first.
fn order_of(event: &Event) -> usize {
    let is_end = event.met == Met::End;
    let place = usize::MAX.saturating_sub(event.place.saturating_mul(2));
    place.saturating_sub(usize::from(!is_end))
}

impl ReadItems {
    pub(crate) fn of(
        alloc: Global,
        reading: Reading<'_>,
        bytes: &[u8],
        tokens: &[Token],
    ) -> Result<ReadItems, AllocError> {
        let text = TokenText::of(alloc, bytes, tokens)?;
        let own = text.text.as_slice();
        let source = Source::read(alloc, reading.edition, reading.options, own)?;
        Ok(ReadItems {
            text,
            source,
            count: tokens.len(),
        })
    }

    pub(crate) fn items(&self) -> &[Item] {
        self.source.items()
    }

    fn lexeme(&self, place: usize) -> Option<Lexeme> {
        self.source.lexemes().get(place).copied()
    }

    /// The text of a lexeme.
    fn lexeme_text(&self, place: usize) -> &[u8] {
        let Some(lexeme) = self.lexeme(place) else {
            return b"";
        };
        let behind = lexeme.start.saturating_add(lexeme.len);
        self.text.text.get(lexeme.start..behind).unwrap_or(b"")
    }

    /// The number of the token that a lexeme begins.
    pub(crate) fn token_of(&self, place: usize) -> usize {
        match self.lexeme(place) {
            None => self.count,
            Some(lexeme) => self.text.token_at(lexeme.start),
        }
    }

    /// The tokens from a lexeme up to another.
    fn tokens_of(&self, first: usize, behind: usize) -> Range {
        Range {
            first: self.token_of(first),
            behind: self.token_of(behind),
        }
    }

    /// The tokens of an item, with its attributes.
    pub(crate) fn item_tokens(&self, item: Item) -> Range {
        self.tokens_of(item.first, item.behind)
    }

    /// The recursion limit that an active attribute of the file gives.
    pub(crate) fn recursion_limit(&self) -> Option<u32> {
        let active = self.source.active_conditions();
        let inner = inner_attributes(0, self.source.items());
        for attribute in self.source.attributes().attributes_in(inner) {
            if let AttributeKind::RecursionLimit(value) = attribute.kind {
                if is_active(active, attribute.condition) {
                    return number_in(string_text(self.text.text.as_slice(), value));
                }
            }
        }
        None
    }

    /// Where the group opens that a definition or a call has.
    fn opening(&self, item: Item) -> Option<usize> {
        for place in item.word..item.behind {
            if let LexemeKind::Open(_) = self.lexeme(place)?.kind {
                return Some(place);
            }
        }
        None
    }

    /// The tokens in that group.
    fn group(&self, item: Item) -> Range {
        let Some(opening) = self.opening(item) else {
            return self.tokens_of(item.behind, item.behind);
        };
        let partner = self.source.partners().get(opening).copied();
        let behind = self.token_of(partner.unwrap_or(opening));
        Range {
            first: self.token_of(opening).saturating_add(1),
            behind,
        }
    }

    /// Whether an active `macro_export` begins in a range.
    fn exports(&self, range: Range) -> bool {
        let active = self.source.active_conditions();
        let attributes = self.source.attributes().attributes_in(range);
        attributes.iter().any(|attribute| {
            is_active(active, attribute.condition)
                && matches!(attribute.kind, AttributeKind::MacroExport)
        })
    }

    /// Whether an active `macro_use` begins in a range.
    fn uses(&self, range: Range) -> bool {
        let active = self.source.active_conditions();
        let attributes = self.source.attributes().attributes_in(range);
        attributes.iter().any(|attribute| {
            is_active(active, attribute.condition) && is_of_macro_use(attribute.kind)
        })
    }

    /// Whether a word stands in a range.
    fn has_word(&self, range: Range, word: &[u8]) -> bool {
        for place in range.first..range.behind {
            if self.lexeme_text(place) == word {
                return true;
            }
        }
        false
    }

    /// The event of a definition or of a call.
    fn event(&self, item: Item, met: Met, path: Range) -> Event {
        let outer = outer_attributes(item);
        let is_exported = met == Met::Definition && self.exports(outer);
        Event {
            place: item.first,
            met,
            path,
            group: self.group(item),
            behind: self.token_of(item.behind),
            is_exported,
            is_local: is_exported && self.has_word(outer, b"local_inner_macros"),
        }
    }

    /// The lexemes of the path that a call begins with, or of the name of a definition.
    fn path(&self, item: Item) -> Range {
        if let Some(name) = item.name {
            return self.tokens_of(name, name.saturating_add(1));
        }
        for place in item.word..item.behind {
            if let Some(lexeme) = self.lexeme(place) {
                if lexeme.kind == LexemeKind::Mark(b'!') {
                    return self.tokens_of(item.word, place);
                }
            }
        }
        self.tokens_of(item.word, item.word)
    }

    /// Whether an inline module of a number keeps its macros to itself.
    fn keeps(&self, number: usize, item: Item) -> bool {
        let Some(body) = item.body else {
            return false;
        };
        let items = self.source.items();
        if items.len() <= number {
            return false;
        }
        let inner = inner_attributes(body.first, children_of(items, number));
        !self.uses(outer_attributes(item)) && !self.uses(inner)
    }

    /// Adds what is met with an item of a number.
    fn add(&self, events: &mut Vec<Event>, number: usize, item: Item) -> Result<(), AllocError> {
        match item.kind {
            ItemKind::MacroRules => {
                events.push(self.event(item, Met::Definition, self.path(item)))?;
            }
            ItemKind::MacroCall => events.push(self.event(item, Met::Call, self.path(item)))?,
            ItemKind::Mod if self.keeps(number, item) => {
                events.push(border(item.first, Met::Begin))?;
                events.push(border(item.behind, Met::End))?;
            }
            _ => {}
        }
        Ok(())
    }

    /// What is met among the items that the options leave there, the last first.
    pub(crate) fn events(&self, alloc: Global) -> Result<Vec<Event>, AllocError> {
        let mut events = Vec::new(alloc);
        for (number, item) in self.source.items().iter().enumerate() {
            let standing = self.source.standings().get(number).copied();
            if is_configured(standing) {
                self.add(&mut events, number, *item)?;
            }
        }
        events.sort_by_key(|event| order_of(event))?;
        Ok(events)
    }
}

fn is_configured(standing: Option<Standing>) -> bool {
    match standing {
        None => false,
        Some(standing) => standing.is_configured,
    }
}

/// The number that some bytes write.
fn number_in(bytes: &[u8]) -> Option<u32> {
    std::str::from_utf8(bytes).ok()?.parse::<u32>().ok()
}
