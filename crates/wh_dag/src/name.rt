//! The name of a view, as a fault carries it.
ghost use Rattle.std.specs.Prelude.{◌≡◌, List, ℕ, string_bytes};

use std::marker::Model;

/// The name of a view, or of a child as it was written.
#[derive(Debug, Drop)]
pub struct Name {
    text: String,
}

impl Model for Name {
    ghost Value = { List ℕ };

    ghost view = { λ n. string_bytes n.text };
}

impl Name {
    /// Takes a text as a name, with no copy.
    pub fn new(text: String) -> Name
        ensures { result ≡ string_bytes text }
    {
        Name { text }
    }

    /// Returns the name as a text.
    pub fn as_str(&self) -> &str
        ensures { result.now ≡ self.now }
    {
        self.text.as_str()
    }

    /// Returns the text that the name was made of, with no copy.
    pub fn into_string(self) -> String
        ensures { string_bytes result ≡ self }
    {
        self.text
    }
}
