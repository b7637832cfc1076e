//! What follows from the definitions of partners, items and use trees.
ghost use Rattle.std.specs.Prelude.{◌≡◌, ◌&&◌, ◌-◌, ℕ, List, true, false, drop, filter, max, nat_le, nat_lt, take};
ghost use Rattle.std.specs.List.Sorted.{IsPartitionPoint};
ghost use Rattle.item_tree.specs.Lists.{UseTreesStandInLists};
ghost use Rattle.item_tree.specs.Pairs.{PairsNest};
ghost use Rattle.item_tree.specs.NoneTaken.{ItemsTakeNoOther};
ghost use Rattle.item_tree.specs.SyntaxErrors.{WholeTextsHaveNoErrors};
ghost use Rattle.item_tree.specs.Covers.{LevelsAreCovered, LevelsNest};

/// Each lexeme of a level lies in exactly one of its items, errors and inner attributes. These are in order, and what is
/// in an item lies within the level of the item.
pub fn items_cover_their_levels()
    ensures covered { LevelsAreCovered }
    ensures nested { LevelsNest }
{}

/// What an item takes behind its own words, with an end or without, has nothing that begins an item wherever it stands.
pub fn items_take_no_other()
    ensures { ItemsTakeNoOther }
{}

/// A text whose items are whole, and whose delimiters have partners, has no errors.
pub fn whole_texts_have_no_errors()
    ensures { WholeTextsHaveNoErrors }
{}

/// Partners are each the other's, the first opens and the second closes a group of one kind, and such groups nest.
pub fn groups_nest()
    ensures { PairsNest }
{}

/// Each use tree stands behind the one in whose list it is, and that is a list.
pub fn use_trees_stand_in_lists()
    ensures { UseTreesStandInLists }
{}

/// Of a list in the order of numbers, what has its number above one and up to another stands between the places where
/// the list is parted by the two.
pub fn numbers_between_stand_between<T>()
    ensures { (number : T → ℕ) (low high : ℕ) (xs : List T) (s e : ℕ)
        → IsPartitionPoint (λ (x : T). nat_le (number x) low ≡ true) (λ (x : T). nat_le (number x) low ≡ false) xs s
        → IsPartitionPoint (λ (x : T). nat_le (number x) high ≡ true) (λ (x : T). nat_le (number x) high ≡ false) xs e
        → filter (λ x. nat_lt low (number x) && nat_le (number x) high) xs ≡ take (max e s - s) (drop s xs) }
{}
