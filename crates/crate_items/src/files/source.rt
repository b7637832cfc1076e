//! What a crate reads of a file: its items, how each stands, and the modules that it declares.
ghost use Rattle.std.specs.Prelude.{◌≡◌, ◌≤◌, ◌<◌, IfOk, length, take};
ghost use Rattle.std.specs.Option.{option_copied};
ghost use Rattle.crate_items.specs.Sources.{IsSourceOf};
ghost use Rattle.crate_items.specs.Standings.{may_stand};
ghost use Rattle.item_tree.specs.Children.{ByParent};
ghost use Rattle.item_tree.specs.ItemAttributes.{inner_range};

use crate::files::found::path_value;
use crate::modules::mod_items::{ModItem, mod_items, path_in_range};
use crate::modules::standing::{Standing, View, standings};
use dm_base::edition::Edition;
use item_tree::attributes::item_attributes::inner_attributes;
use item_tree::attributes::{Attributes, read_attributes};
use item_tree::cfg::CfgOptions;
use item_tree::items::{Item, ItemTree, item_tree};
use item_tree::lexer::delimiters::partners;
use item_tree::lexer::lexeme::{Lexeme, read_lexemes};
use std::alloc::{AllocError, Global};
use std::marker::Model;

/// A file, as a crate of some edition and options reads it.
pub struct Source {
    lexemes: Vec<Lexeme>,
    partners: Vec<usize>,
    tree: ItemTree,
    attributes: Attributes,
    active: Vec<bool>,
    standings: Vec<Standing>,
    mods: Vec<ModItem>,
    is_enabled: bool,
    path: Option<Vec<u8>>,
}

/// Hand-written `Drop`, to keep proofs small: dropping one is then a single call.
impl Drop for Source {
    fn drop(self) {
        let Source {
            lexemes: _lexemes,
            partners: _partners,
            tree: _tree,
            attributes: _attributes,
            active: _active,
            standings: _standings,
            mods: _mods,
            is_enabled: _is_enabled,
            path: _path,
        } = self;
    }
}

impl Model for Source {
    ghost use Rattle.std.specs.Prelude.{option_map};
    ghost use Rattle.crate_items.specs.Sources.{Source};
    ghost use Rattle.item_tree.specs.Children.{ByParent};

    ghost Value = { Source };

    ghost view = { λ s. record {
      lexemes = s.lexemes.items;
      partners = s.partners.items;
      items = s.tree.items.items;
      top_level = s.tree.top_level;
      attributes = s.attributes;
      active = s.active.items;
      standings = s.standings.items;
      mods = s.mods.items;
      is_enabled = s.is_enabled;
      path = option_map (λ p. p.items) s.path;
    } };

    ghost invariant = { λ s. ByParent s.tree.items.items };
}

impl Source {
    /// Reads a text as a crate of an edition and options does.
    ///
    /// # Errors
    ///
    /// Fails only where memory runs out.
    pub fn read(
        alloc: Global,
        edition: Edition,
        options: &CfgOptions,
        text: &[u8],
    ) -> Result<Source, AllocError>
        ensures { IfOk result (IsSourceOf edition options.now text.now) }
    {
        let lexemes = read_lexemes(alloc, text, edition)?;
        let partners = partners(alloc, lexemes.as_slice())?;
        let tree = item_tree(alloc, lexemes.as_slice(), partners.as_slice())?;
        let attributes = read_attributes(alloc, text, lexemes.as_slice())?;
        let active = attributes.active_conditions(alloc, options, text)?;
        let own = inner_attributes(0, tree.top_level_items());
        let is_enabled = attributes.is_cfg_enabled(options, text, active.as_slice(), own);
        let view = View {
            options,
            text,
            lexemes: lexemes.as_slice(),
            partners: partners.as_slice(),
            attributes: &attributes,
            active: active.as_slice(),
            items: tree.items.as_slice(),
            is_enabled,
        };
        let standings = standings(alloc, &view)?;
        let mods = mod_items(alloc, lexemes.as_slice(), &view, standings.as_slice())?;
        let path = path_value(alloc, text, path_in_range(&view, own))?;
        Ok(Source {
            lexemes,
            partners,
            tree,
            attributes,
            active,
            standings,
            mods,
            is_enabled,
            path,
        })
    }

    /// The lexemes.
    pub fn lexemes(&self) -> &[Lexeme]
        ensures { result.now ≡ self.now.lexemes }
    {
        self.lexemes.as_slice()
    }

    /// For each lexeme the place of its partner, or its own.
    pub fn partners(&self) -> &[usize]
        ensures { result.now ≡ self.now.partners }
    {
        self.partners.as_slice()
    }

    /// The items, in the order of `item_tree`.
    pub fn items(&self) -> &[Item]
        ensures exact { result.now ≡ self.now.items }
        ensures by_parent { ByParent self.now.items }
    {
        self.tree.items.as_slice()
    }

    /// The attributes.
    pub fn attributes(&self) -> &Attributes
        ensures { result.now ≡ self.now.attributes }
    {
        &self.attributes
    }

    /// For each condition of attributes whether it is active.
    pub fn active_conditions(&self) -> &[bool]
        ensures { result.now ≡ self.now.active }
    {
        self.active.as_slice()
    }

    /// How each item stands, at the item's number.
    pub fn standings(&self) -> &[Standing]
        ensures { result.now ≡ self.now.standings }
    {
        self.standings.as_slice()
    }

    /// The modules that it declares, by its items that the crate has, in the order of the text.
    pub fn mod_items(&self) -> &[ModItem]
        ensures { result.now ≡ self.now.mods }
    {
        self.mods.as_slice()
    }

    /// Whether each `cfg` may hold that the file begins with: else there is no module of this file.
    pub fn is_enabled(&self) -> bool
        ensures { result ≡ self.now.is_enabled }
    {
        self.is_enabled
    }

    /// What the first active `#![path]` stands for that the file begins with. The files of the children of a module of this
    /// file are looked for beside it, unless a `#[path]` stands before the module.
    pub fn path(&self) -> Option<&[u8]>
        ensures { option_copied result ≡ self.now.path }
    {
        match &self.path {
            None => None,
            Some(path) => Some(path.as_slice()),
        }
    }
}
