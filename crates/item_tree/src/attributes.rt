//! The attributes of a file that matter to names, and the predicates that they stand under.
ghost use Rattle.std.specs.Prelude.{◌≡◌, ◌≤◌, true, false, length, nat_le, IfOk, OnOk};
ghost use Rattle.std.specs.List.Sorted.{IsPartitionPoint};
ghost use Rattle.item_tree.specs.Attributes as spec;
ghost use Rattle.item_tree.specs.ItemAttributes as own;
ghost use Rattle.item_tree.specs.ItemAttributes.{InOrder};
ghost use Rattle.item_tree.specs.declared.attributes.Attribute.{Attribute};

pub mod attribute_kind;
pub mod attribute_lists;
pub mod attribute_reader;
pub mod attribute_rows;
pub mod item_attributes;

use crate::attributes::attribute_kind::{
    AttributeInput, AttributeKind, NodeRange, input_of, kind_of, lexemes_in,
};
use crate::attributes::attribute_reader::{AttributePlace, ConditionPlace, find_attributes};
use crate::cfg::cfg_parser::{CfgParse, parse_cfg};
use crate::cfg::{CfgNode, CfgOptions};
use crate::items::Range;
use crate::lexer::lexeme::Lexeme;
use crate::lexer::word::Word;
use std::alloc::{AllocError, Global};
use std::marker::Model;

/// An attribute.
#[derive(Clone, Copy, PartialEq, Eq, Debug)]
pub struct Attribute {
    pub kind: AttributeKind,
    /// Whether it stands in `#![..]`.
    pub inner: bool,
    /// The number of the condition that it is under.
    pub condition: Option<usize>,
    /// The lexemes behind its first one.
    pub input: Range,
}

/// What a `cfg_attr` asks.
#[derive(Clone, Copy, PartialEq, Eq, Debug)]
pub struct Condition {
    /// The number of the condition that the `cfg_attr` is under itself.
    pub outer: Option<usize>,
    pub predicate: NodeRange,
}

/// The predicate of a `cfg`.
fn cfg_list(name: Word, input: AttributeInput) -> Option<Range>
    ensures { result ≡ spec.cfg_list name input }
{
    match (name, input) {
        (Word::Cfg, AttributeInput::List(list)) => Some(list),
        _ => None,
    }
}

/// The attributes of a file, so far as they are read.
struct AttributeTable {
    attributes: Vec<Attribute>,
    conditions: Vec<Condition>,
    nodes: Vec<CfgNode>,
    errors: Vec<usize>,
}

/// Hand-written `Drop`, to keep proofs small: dropping one is then a single call.
impl Drop for AttributeTable {
    fn drop(self) {
        let AttributeTable {
            attributes: _attributes,
            conditions: _conditions,
            nodes: _nodes,
            errors: _errors,
        } = self;
    }
}

impl Model for AttributeTable {
    ghost use Rattle.item_tree.specs.Attributes.{Table};

    ghost Value = { Table };

    ghost view = { λ t. record {
      attributes = t.attributes.items;
      conditions = t.conditions.items;
      nodes = t.nodes.items;
      errors = t.errors.items;
    } };
}

impl AttributeTable {
    fn new(alloc: Global) -> AttributeTable
        ensures { result ≡ spec.empty }
    {
        AttributeTable {
            attributes: Vec::new(alloc),
            conditions: Vec::new(alloc),
            nodes: Vec::new(alloc),
            errors: Vec::new(alloc),
        }
    }

    /// Adds the nodes of a predicate. One that cannot be read is `Invalid`.
    fn add_predicate(
        &mut self,
        alloc: Global,
        text: &[u8],
        lexemes: &[Lexeme],
        range: Range,
    ) -> Result<NodeRange, AllocError>
        ensures table { OnOk result
            (self.new ≡ spec.with_predicate text.now lexemes.now range self.old) }
        ensures nodes { IfOk result
            (λ r. r ≡ spec.predicate_range text.now lexemes.now range self.old) }
    {
        let start = self.nodes.len();
        match parse_cfg(alloc, text, lexemes_in(lexemes, range))? {
            CfgParse::Predicate(nodes) => {
                self.nodes.extend_from_slice(nodes.as_slice())?;
                let len = nodes.len();
                Ok(NodeRange { start, len })
            }
            CfgParse::Malformed(at) => {
                self.errors.push(range.first + at)?;
                self.nodes.push(CfgNode::Invalid)?;
                Ok(NodeRange { start, len: 1 })
            }
        }
    }

    fn add_condition(
        &mut self,
        alloc: Global,
        text: &[u8],
        lexemes: &[Lexeme],
        place: ConditionPlace,
    ) -> Result<(), AllocError>
        ensures { OnOk result (self.new ≡ spec.with_condition text.now lexemes.now place self.old) }
    {
        let predicate = self.add_predicate(alloc, text, lexemes, place.predicate)?;
        let outer = place.outer;
        self.conditions.push(Condition { outer, predicate })?;
        Ok(())
    }

    /// Adds an attribute, of which the kind is known.
    fn push(&mut self, kind: AttributeKind, place: AttributePlace) -> Result<(), AllocError>
        ensures { OnOk result (self.new ≡ spec.pushed kind place self.old) }
    {
        self.attributes.push(Attribute {
            kind,
            inner: place.inner,
            condition: place.condition,
            input: place.input,
        })?;
        if matches!(kind, AttributeKind::Malformed) {
            self.errors.push(place.input.first)?;
        }
        Ok(())
    }

    fn add_attribute(
        &mut self,
        alloc: Global,
        text: &[u8],
        lexemes: &[Lexeme],
        place: AttributePlace,
    ) -> Result<(), AllocError>
        ensures { OnOk result (self.new ≡ spec.with_attribute text.now lexemes.now place self.old) }
    {
        let input = input_of(text, lexemes, place.input);
        match cfg_list(place.name, input) {
            Some(list) => {
                let predicate = self.add_predicate(alloc, text, lexemes, list)?;
                self.push(AttributeKind::Cfg(predicate), place)
            }
            None => self.push(kind_of(place.name, input), place),
        }
    }

    fn add_conditions(
        &mut self,
        alloc: Global,
        text: &[u8],
        lexemes: &[Lexeme],
        places: &[ConditionPlace],
    ) -> Result<(), AllocError>
        ensures { OnOk result
            (self.new ≡ spec.with_conditions text.now lexemes.now places.now self.old) }
    {
        for place in places {
            self.add_condition(alloc, text, lexemes, *place)?;
        }
        Ok(())
    }

    fn add_attributes(
        &mut self,
        alloc: Global,
        text: &[u8],
        lexemes: &[Lexeme],
        places: &[AttributePlace],
    ) -> Result<(), AllocError>
        ensures { OnOk result
            (self.new ≡ spec.with_attributes text.now lexemes.now places.now self.old) }
    {
        for place in places {
            self.add_attribute(alloc, text, lexemes, *place)?;
        }
        Ok(())
    }
}

/// The attributes of a file.
pub struct Attributes {
    table: AttributeTable,
}

/// Hand-written `Drop`, to keep proofs small: dropping one is then a single call.
impl Drop for Attributes {
    fn drop(self) {
        let Attributes { table: _table } = self;
    }
}

impl Model for Attributes {
    ghost use Rattle.item_tree.specs.Attributes.{Table};
    ghost use Rattle.item_tree.specs.ItemAttributes.{InOrder};

    ghost Value = { Table };

    ghost view = { λ t. t.table };

    ghost invariant = { λ t. InOrder t.table.attributes };
}

impl Attributes {
    ghost use Rattle.item_tree.specs.ItemAttributes.{InOrder, attributes_in, is_cfg_enabled};

    /// The attributes, in order.
    pub fn attributes(&self) -> &[Attribute]
        ensures exact { result.now ≡ self.now.attributes }
        ensures in_order { InOrder self.now.attributes }
    {
        self.table.attributes.as_slice()
    }

    /// The conditions that attributes are under, each behind the one that it is under itself.
    pub fn conditions(&self) -> &[Condition]
        ensures { result.now ≡ self.now.conditions }
    {
        self.table.conditions.as_slice()
    }

    /// The nodes of all predicates.
    pub fn nodes(&self) -> &[CfgNode]
        ensures { result.now ≡ self.now.nodes }
    {
        self.table.nodes.as_slice()
    }

    /// The lexemes where a predicate goes wrong, and those behind the names of malformed attributes.
    pub fn errors(&self) -> &[usize]
        ensures { result.now ≡ self.now.errors }
    {
        self.table.errors.as_slice()
    }

    /// The attributes that begin in a range of lexemes, in order, as those of an item in what stands before its
    /// visibility. The time is logarithmic.
    pub fn attributes_in(&self, range: Range) -> &[Attribute]
        ensures { result.now ≡ attributes_in range self.now.attributes }
    {
        let attributes = self.attributes();
        let first = count_up_to(attributes, range.first);
        let behind = count_up_to(attributes, range.behind);
        &attributes[first..behind.max(first)]
    }

    /// Whether the attributes that begin in a range leave what they belong to where it is: each `cfg` of them that is
    /// active, by the answers of `active_conditions`, may hold.
    pub fn is_cfg_enabled(
        &self,
        options: &CfgOptions,
        text: &[u8],
        active: &[bool],
        range: Range,
    ) -> bool
        ensures { result ≡ is_cfg_enabled options.now text.now active.now range self.now }
    {
        let nodes = self.nodes();
        self.attributes_in(range).iter().all(|attribute| leaves(
            options, text, nodes, active, *attribute,
        ))
    }

    /// For each condition whether attributes stand under it: where its own predicate, and those around it, are not
    /// known not to hold.
    ///
    /// # Errors
    ///
    /// Fails only where memory runs out.
    pub fn active_conditions(
        &self,
        alloc: Global,
        options: &CfgOptions,
        text: &[u8],
    ) -> Result<Vec<bool>, AllocError>
        ensures { IfOk result
            (λ active. active.items ≡ spec.active_conditions options.now text.now self.now) }
    {
        let mut active = Vec::new(alloc);
        for condition in &self.table.conditions {
            let nodes = nodes_in(self.table.nodes.as_slice(), condition.predicate);
            let holds = may_hold(options.check(text, nodes));
            let is_active = holds && is_active(active.as_slice(), condition.outer);
            active.push(is_active)?;
        }
        Ok(active)
    }
}

/// The nodes of a predicate, so far as there are some.
pub fn nodes_in(nodes: &[CfgNode], range: NodeRange) -> &[CfgNode]
    ensures { result.now ≡ spec.nodes_in nodes.now range }
{
    let rest = &nodes[range.start.min(nodes.len())..];
    &rest[..range.len.min(rest.len())]
}

/// How many attributes have their first lexeme before a place.
fn count_up_to(attributes: &[Attribute], place: usize) -> usize
    requires { InOrder attributes.now }
    ensures within { result ≤ length attributes.now }
    ensures parted { IsPartitionPoint (λ (a : Attribute). nat_le a.input.first place ≡ true)
        (λ (a : Attribute). nat_le a.input.first place ≡ false) attributes.now result }
{
    attributes.partition_point(|attribute| attribute.input.first <= place)
}

/// Whether an attribute leaves what it belongs to where it is.
fn leaves(
    options: &CfgOptions,
    text: &[u8],
    nodes: &[CfgNode],
    active: &[bool],
    attribute: Attribute,
) -> bool
    ensures { result ≡ own.leaves options.now text.now nodes.now active.now attribute }
{
    match attribute.kind {
        AttributeKind::Cfg(predicate) if is_active(active, attribute.condition) => {
            may_hold(options.check(text, nodes_in(nodes, predicate)))
        }
        _ => true,
    }
}

/// Whether what is under a predicate stays: also where nobody knows.
pub fn may_hold(value: Option<bool>) -> bool
    ensures { result ≡ spec.may_hold value }
{
    match value {
        None => true,
        Some(holds) => holds,
    }
}

/// Whether what is under a condition stands, by the answers of `active_conditions`.
pub fn is_active(active: &[bool], condition: Option<usize>) -> bool
    ensures { result ≡ spec.is_active active.now condition }
{
    match condition {
        None => true,
        Some(number) => match active.get(number) {
            None => true,
            Some(is_active) => *is_active,
        },
    }
}

/// The attributes of a file, in order; those in `cfg_attr` and `unsafe` stand in the place of these. The time is
/// linear in the lexemes.
///
/// # Errors
///
/// Fails only where memory runs out.
pub fn read_attributes(
    alloc: Global,
    text: &[u8],
    lexemes: &[Lexeme],
) -> Result<Attributes, AllocError>
    ensures { IfOk result (λ table. table ≡ spec.attributes_of text.now lexemes.now) }
{
    let places = find_attributes(alloc, lexemes)?;
    let mut table = AttributeTable::new(alloc);
    table.add_conditions(alloc, text, lexemes, places.conditions.as_slice())?;
    table.add_attributes(alloc, text, lexemes, places.attributes.as_slice())?;
    Ok(Attributes { table })
}
