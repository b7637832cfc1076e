//! The tables that `items` prints, and the words that choose them.

/// What is printed of a file.
#[derive(Clone, Copy)]
pub enum ItemTable {
    /// Each item with its name, the number of the item that it stands in, and its own text.
    Items,
    /// Each token with its length.
    Tokens,
    /// Each lexeme with its start and its length.
    Lexemes,
    /// What is written before each item.
    Visibilities,
    /// Of each item the fields or variants.
    Members,
    /// Of each implementation whether it is one of a trait.
    Implementations,
    /// The use trees of each `use` item.
    Uses,
    /// Each attribute, and how many errors and conditions there are.
    Attributes,
    /// Of each item how many attributes it has, and whether they leave it there; the same of the
    /// inner ones in its body.
    ItemAttributes,
    /// Each line, and whether it holds as a predicate.
    Predicates,
    /// Each syntax error with its place.
    Errors,
}

/// The word of a table, and what it says.
pub(crate) struct TableWord {
    pub(crate) id: &'static str,
    pub(crate) help: &'static str,
    pub(crate) table: ItemTable,
}

/// Those of all tables but the first, in the order in which help lists them.
pub(crate) const TABLES: [TableWord; 10] = [
    TableWord {
        id: "tokens",
        help: "Each token with its length",
        table: ItemTable::Tokens,
    },
    TableWord {
        id: "lexemes",
        help: "Each lexeme with its start and its length",
        table: ItemTable::Lexemes,
    },
    TableWord {
        id: "visibilities",
        help: "What is written before each item",
        table: ItemTable::Visibilities,
    },
    TableWord {
        id: "members",
        help: "The shape of each item, and its fields or variants",
        table: ItemTable::Members,
    },
    TableWord {
        id: "implementations",
        help: "Each impl, and whether it is one of a trait",
        table: ItemTable::Implementations,
    },
    TableWord {
        id: "uses",
        help: "Each use tree with the number of the list that it stands in, and what it imports",
        table: ItemTable::Uses,
    },
    TableWord {
        id: "attributes",
        help: "Each attribute, and how many errors and conditions there are",
        table: ItemTable::Attributes,
    },
    TableWord {
        id: "item-attributes",
        help: "Of each item how many attributes it has, and whether they leave it there; \
the same of its inner ones",
        table: ItemTable::ItemAttributes,
    },
    TableWord {
        id: "predicates",
        help: "Each line of the file as a cfg predicate: whether it holds",
        table: ItemTable::Predicates,
    },
    TableWord {
        id: "errors",
        help: "Each syntax error behind the byte where it stands",
        table: ItemTable::Errors,
    },
];
