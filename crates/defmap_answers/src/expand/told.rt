//! What is told of the calls of a file.
use crate::expand::events::{Event, ReadItems};
use crate::expand::expander::{Expander, Level, end_of, place_of, start_of, tokens_in};
use crate::expand::faults::{Fault, NO_ITEM};
use crate::expand::rows::{ExpansionRow, ItemRow, TokenRow};
use crate::expand::token_text::{left_behind, push_tokens, written};
use crate::rows::{Location, Style, push_row};
use item_tree::items::item_kind::ItemKind;
use macro_rules::token::Token;
use std::alloc::AllocError;
use std::fmt::Write;

impl<'f, 'o> Expander<'f, 'o> {
    /// The tokens of an item, each with its place, where the answer has them.
    fn token_rows(&self, tokens: &[Token]) -> Result<Vec<TokenRow<'_>>, AllocError> {
        let mut rows = Vec::new(self.alloc);
        if self.manner.style == Style::Text {
            return Ok(rows);
        }
        let mut left = 0usize;
        for token in tokens {
            let text = written(self.bytes.as_slice(), *token);
            if left != 0 || text.is_empty() {
                left = left.saturating_sub(1);
                continue;
            }
            left = left_behind(token.kind);
            let at = self.location(token.span.start);
            rows.push(TokenRow {
                text: std::str::from_utf8(text).unwrap_or("?"),
                line: at.line,
                column: at.column,
            })?;
        }
        Ok(rows)
    }

    /// The items of some tokens that stand in no other.
    pub(crate) fn item_rows(
        &self,
        read: &ReadItems,
        tokens: &[Token],
    ) -> Result<Vec<ItemRow<'_>>, AllocError> {
        let mut rows = Vec::new(self.alloc);
        for item in read.items() {
            if item.parent.is_none() {
                let own = tokens_in(tokens, read.item_tokens(*item));
                let mut text = String::new(self.alloc);
                push_tokens(&mut text, self.bytes.as_slice(), own)?;
                rows.push(ItemRow {
                    text,
                    tokens: self.token_rows(own)?,
                })?;
            }
        }
        Ok(rows)
    }

    /// The row of a call.
    pub(crate) fn row(
        &self,
        level: &Level,
        event: Event,
        items: Vec<ItemRow<'_>>,
        fault: Option<Fault>,
    ) -> Result<String, AllocError> {
        let path = tokens_in(level.tokens.as_slice(), event.path);
        let mut name = String::new(self.alloc);
        push_tokens(&mut name, self.bytes.as_slice(), path)?;
        let mut row = String::new(self.alloc);
        let told = ExpansionRow {
            reason: "expansion",
            name,
            at: self.location(self.call.at),
            depth: level.depth.saturating_add(1),
            written: self.location(start_of(path)),
            items,
            fault: fault.map(|fault| fault.words),
            fault_at: match fault {
                Some(Fault { at: Some(at), .. }) => Some(self.location(at)),
                _ => None,
            },
        };
        push_row(&mut row, self.alloc, self.manner.style, &told)?;
        Ok(row)
    }

    fn location(&self, at: usize) -> Location<'f> {
        self.lines.location(at.checked_sub(self.base))
    }

    /// Adds a row to the answer, if the outermost call is to be told or nothing is expanded behind it.
    pub(crate) fn add(&mut self, row: &str, fault: Option<Fault>) -> Result<(), AllocError> {
        let is_last = match fault {
            None => false,
            Some(fault) => fault.is_last,
        };
        if is_last {
            self.is_over = true;
        }
        if self.call.is_wanted || is_last {
            self.answer.out.push_str(row)?;
            self.has_found = true;
            self.answer.is_whole = self.answer.is_whole && fault.is_none();
        }
        Ok(())
    }

    /// The first place where what was read is no item.
    pub(crate) fn item_fault(&self, read: &ReadItems, tokens: &[Token]) -> Option<Fault> {
        for item in read.items() {
            let place = match (item.kind, item.missing) {
                (ItemKind::Error, _) => item.first,
                (_, Some(_)) => item.behind,
                _ => continue,
            };
            return Some(Fault {
                words: NO_ITEM,
                at: Some(place_of(tokens, read.token_of(place))),
                is_last: false,
            });
        }
        None
    }

    /// Whether the place that is asked for stands in a call, or none is.
    pub(crate) fn is_wanted(&self, tokens: &[Token]) -> bool {
        let Some((line, column)) = self.manner.wanted else {
            return true;
        };
        let first = self.location(start_of(tokens));
        let end = self.location(end_of(tokens));
        let is_behind = first.line < line || first.line == line && first.column <= column;
        let is_before = line < end.line || line == end.line && column < end.column;
        is_behind && is_before
    }

    /// Tells that no call stands where one is asked for.
    pub(crate) fn tell_absent(&mut self, path: &str) -> Result<(), AllocError> {
        if let (false, Some((line, column))) = (self.has_found, self.manner.wanted) {
            self.answer.is_whole = false;
            let told = &mut self.answer.told;
            write!(
                told,
                "{path}: no macro call among its items at {line}:{column}\n"
            )?;
        }
        Ok(())
    }
}
