//! When colours are shown.
ghost use Rattle.std.specs.Prelude.{◌≡◌, IfSome};
ghost use Rattle.defmap_inputs.specs.Colours as spec;

/// When colours are shown.
#[derive(Clone, Copy, PartialEq, Eq, Debug)]
pub enum When {
    /// On a terminal, unless the environment asks for none.
    Auto,
    Always,
    Never,
}

impl When {
    /// Whether they are shown, by whether it is a terminal and whether the environment asks for none.
    pub fn shows(self, is_terminal: bool, is_plain: bool) -> bool
        ensures { result ≡ spec.shows self is_terminal is_plain }
    {
        match self {
            When::Auto => is_terminal && !is_plain,
            When::Always => true,
            When::Never => false,
        }
    }
}

/// What a word of the command line says of this.
pub(crate) fn when_of(word: &str) -> Option<When> {
    match word {
        "auto" => Some(When::Auto),
        "always" => Some(When::Always),
        "never" => Some(When::Never),
        _ => None,
    }
}
