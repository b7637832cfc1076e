//! Predicates of `cfg`, and whether they hold for a crate's options.
ghost use Rattle.std.specs.Prelude.{◌≡◌, ◌++◌, ◌∷◌, ℕ, [], OnOk, OnErr, None, option_map, not};
ghost use Rattle.item_tree.specs.Cfg as spec;
ghost use Rattle.item_tree.specs.Cfg.{CfgExpr};
ghost use Rattle.item_tree.specs.Strings.{string_value};
ghost use Rattle.item_tree.specs.declared.cfg.CfgAtom.TheVariants as atom;

pub mod cfg_if;
pub mod cfg_parser;
pub(crate) mod cfg_select;

use crate::lexer::span::{Span, name_text};
use crate::lexer::strings::string_is;
use dm_base::symbol::Symbol;
use std::alloc::{AllocError, Global};
use std::marker::Model;

/// A step of a predicate, which is a row of them: `all(a, not(b))` is `Flag(a)`, `All(1)`, `Flag(b)`, `Not(2)`.
/// A number says how many lists are open there.
#[derive(Clone, Copy, PartialEq, Eq, Debug)]
pub enum CfgNode {
    /// What could not be read. Nobody knows whether it holds.
    Invalid,
    /// `true`, and `all()`.
    True,
    /// `false`, and `any()`.
    False,
    /// A name.
    Flag(Span),
    /// A name and its value.
    KeyValue { key: Span, value: Span },
    /// What is before it does not hold.
    Not(usize),
    /// What is before it holds, and so does what is behind it in its list.
    All(usize),
    /// What is before it holds, or what is behind it in its list does.
    Any(usize),
}

/// An option that a crate is built with.
pub enum CfgAtom {
    /// A name, as `unix`.
    Flag(Symbol),
    /// A name and one of its values, as `feature = "std"`.
    KeyValue { key: Symbol, value: Symbol },
}

/// Hand-written `Drop`, to keep proofs small: dropping one is then a single call.
impl Drop for CfgAtom {
    fn drop(self) {
        match self {
            CfgAtom::Flag(_flag) => {}
            CfgAtom::KeyValue {
                key: _key,
                value: _value,
            } => {}
        }
    }
}

/// The options that a crate is built with.
pub struct CfgOptions {
    enabled: Vec<CfgAtom>,
}

/// Hand-written `Drop`, to keep proofs small: dropping one is then a single call.
impl Drop for CfgOptions {
    fn drop(self) {
        let CfgOptions { enabled: _enabled } = self;
    }
}

impl Model for CfgOptions {
    ghost use Rattle.std.specs.Prelude.{List};
    ghost use Rattle.item_tree.specs.declared.cfg.CfgAtom.{CfgAtom};

    ghost Value = { List CfgAtom };

    ghost view = { λ options. options.enabled.items };
}

impl CfgAtom {
    fn is_flag(&self, name: &[u8]) -> bool
        ensures { result ≡ spec.is_flag name.now self.now }
    {
        match self {
            CfgAtom::Flag(flag) => flag.as_str().as_bytes() == name,
            CfgAtom::KeyValue { .. } => false,
        }
    }

    fn is_key_value(&self, name: &[u8], wanted: &[u8]) -> bool
        ensures { result ≡ spec.is_key_value name.now wanted.now self.now }
    {
        match self {
            CfgAtom::Flag(_) => false,
            CfgAtom::KeyValue { key, value } => {
                key.as_str().as_bytes() == name && wanted == value.as_str().as_bytes()
            }
        }
    }

    /// The same of the value that a string of a text stands for.
    fn is_key_string(&self, name: &[u8], text: &[u8], string: Span) -> bool
        ensures { result ≡ spec.is_key_value name.now (string_value text.now string) self.now }
    {
        match self {
            CfgAtom::Flag(_) => false,
            CfgAtom::KeyValue { key, value } => {
                key.as_str().as_bytes() == name
                    && string_is(text, string, value.as_str().as_bytes())
            }
        }
    }
}

impl CfgOptions {
    /// No options.
    pub fn new(alloc: Global) -> CfgOptions
        ensures { result ≡ [] }
    {
        CfgOptions {
            enabled: Vec::new(alloc),
        }
    }

    /// One more option, a name alone.
    ///
    /// # Errors
    ///
    /// Fails where memory runs out, and then changes nothing.
    pub fn insert_atom(&mut self, key: Symbol) -> Result<(), AllocError>
        ensures ok { OnOk result (self.new ≡ self.old ++ atom.Flag key ∷ []) }
        ensures err { OnErr result (self.new ≡ self.old) }
    {
        self.enabled.push(CfgAtom::Flag(key))?;
        Ok(())
    }

    /// One more option, a name with a value.
    ///
    /// # Errors
    ///
    /// Fails where memory runs out, and then changes nothing.
    pub fn insert_key_value(&mut self, key: Symbol, value: Symbol) -> Result<(), AllocError>
        ensures ok { OnOk result (self.new ≡ self.old ++ atom.KeyValue key value ∷ []) }
        ensures err { OnErr result (self.new ≡ self.old) }
    {
        self.enabled.push(CfgAtom::KeyValue { key, value })?;
        Ok(())
    }

    /// Whether a name is an option.
    pub fn has_flag(&self, name: &[u8]) -> bool
        ensures { result ≡ spec.has_flag self.now name.now }
    {
        self.enabled.iter().any(|atom| atom.is_flag(name))
    }

    /// Whether a name with this value is an option.
    pub fn has_key_value(&self, name: &[u8], value: &[u8]) -> bool
        ensures { result ≡ spec.has_key_value self.now name.now value.now }
    {
        self.enabled
            .iter()
            .any(|atom| atom.is_key_value(name, value))
    }

    /// Whether a name is an option with the value that a string of a text stands for, with its escapes.
    fn has_key_string(&self, name: &[u8], text: &[u8], string: Span) -> bool
        ensures { result ≡ spec.has_key_value self.now name.now (string_value text.now string) }
    {
        self.enabled
            .iter()
            .any(|atom| atom.is_key_string(name, text, string))
    }

    fn value_behind(&self, text: &[u8], value: Option<bool>, node: CfgNode) -> Option<bool>
        ensures { result ≡ spec.value_behind self.now text.now value node }
    {
        match node {
            CfgNode::Invalid => None,
            CfgNode::True => Some(true),
            CfgNode::False => Some(false),
            CfgNode::Flag(name) => Some(self.has_flag(name_text(text, name))),
            CfgNode::KeyValue { key, value } => {
                Some(self.has_key_string(name_text(text, key), text, value))
            }
            CfgNode::Not(_) => negated(value),
            CfgNode::All(_) | CfgNode::Any(_) => value,
        }
    }

    /// Whether a predicate over names of the text holds; nobody knows where what could not be read is asked. The time
    /// is linear in the nodes.
    pub fn check(&self, text: &[u8], nodes: &[CfgNode]) -> Option<bool>
        ensures row { result ≡ spec.value_of self.now text.now None None nodes.now }
        ensures tree { (e : CfgExpr) (d : ℕ) → nodes.now ≡ spec.flat e d →
            result ≡ spec.fold self.now text.now e }
    {
        let mut value = None;
        let mut settled = None;
        for node in nodes {
            if is_asked(settled, *node) {
                settled = settled_behind(value, *node);
                value = self.value_behind(text, value, *node);
            }
        }
        value
    }
}

fn negated(value: Option<bool>) -> Option<bool>
    ensures { result ≡ option_map not value }
{
    match value {
        None => None,
        Some(holds) => Some(!holds),
    }
}

/// Which list is settled behind a node, by what is known before it.
fn settled_behind(value: Option<bool>, node: CfgNode) -> Option<usize>
    ensures { result ≡ spec.settled_behind value node }
{
    match node {
        CfgNode::All(depth) => {
            if value == Some(true) {
                None
            } else {
                Some(depth)
            }
        }
        CfgNode::Any(depth) => {
            if value == Some(false) {
                None
            } else {
                Some(depth)
            }
        }
        CfgNode::Invalid | CfgNode::True | CfgNode::False => None,
        CfgNode::Flag(_) | CfgNode::KeyValue { .. } | CfgNode::Not(_) => None,
    }
}

/// Whether a node is asked, where a list of this depth is settled.
fn is_asked(settled: Option<usize>, node: CfgNode) -> bool
    ensures { result ≡ spec.is_asked settled node }
{
    match settled {
        None => true,
        Some(depth) => is_within(depth, node),
    }
}

fn is_within(depth: usize, node: CfgNode) -> bool
    ensures { result ≡ spec.is_within depth node }
{
    match node {
        CfgNode::Not(n) | CfgNode::All(n) | CfgNode::Any(n) => n <= depth,
        CfgNode::Invalid | CfgNode::True | CfgNode::False => false,
        CfgNode::Flag(_) | CfgNode::KeyValue { .. } => false,
    }
}
