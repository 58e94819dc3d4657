//! The dictionary of texts, by which a row has whole numbers for cells alone.
ghost use Rattle.std.specs.Prelude.{◌≡◌, ◌≤◌, ◌<◌, ◌^◌, List, [], All, pos, length, take, IfOk, IsTrue, ◌↔◌, OnOk, OnErr, IsUtf8, option_map};
ghost use Rattle.std.specs.List.{IsDistinct};
ghost use Rattle.std.specs.Str.{bytes_eq};
ghost use Rattle.wh_text.specs.Dict.{number_of_text, text_of_cell, with_text, HasText};

use indexmap::IndexSet;
use std::alloc::{AllocError, Global};
use std::marker::Model;

/// Texts, numbered from 0 in order of first appearance. A text's number is the cell that stands for it in a row. Seen as
/// the list of the texts.
#[derive(Drop)]
pub struct Dict {
    texts: IndexSet<String>,
}

impl Model for Dict {
    ghost use Rattle.std.specs.Prelude.{List, ℕ, map, string_bytes};

    ghost Value = { List (List ℕ) };

    ghost view = { λ d. map string_bytes d.texts.keys };
}

impl Dict {
    /// Makes a dictionary of no texts. Takes no memory.
    pub fn new(alloc: Global) -> Dict
        ensures { result ≡ [] }
    {
        Dict {
            texts: IndexSet::new(alloc),
        }
    }

    /// Returns the number of texts.
    pub fn len(&self) -> usize
        ensures len { result ≡ length self.now }
        ensures small { result < 2 ^ 63 }
    {
        self.texts.len()
    }

    /// Returns whether there are no texts.
    pub fn is_empty(&self) -> bool
        ensures { IsTrue result ↔ (self.now ≡ []) }
    {
        self.texts.is_empty()
    }

    /// Returns the number of a text, which gets the next one where it is new. Only a new text takes memory. An error leaves the dictionary
    /// as it was. Takes O(n) on average for n bytes of text.
    pub fn intern(&mut self, alloc: Global, text: &str) -> Result<i64, AllocError>
        ensures number { IfOk result (λ number. number ≡ pos (number_of_text self.old text.now)) }
        ensures texts { OnOk result (self.new ≡ with_text self.old text.now) }
        ensures memory { OnErr result (¬ (HasText self.old text.now)) }
        ensures err { OnErr result (self.new ≡ self.old) }
    {
        let place = self.place(alloc, text)?;
        self.texts_are_numbered();
        Ok(place as i64)
    }

    /// Returns the place of a text, which is put behind the others where it is new.
    fn place(&mut self, alloc: Global, text: &str) -> Result<usize, AllocError>
        ensures place { IfOk result (λ place. place ≡ number_of_text self.old text.now) }
        ensures within { IfOk result (λ place. place < length self.new) }
        ensures texts { OnOk result (self.new ≡ with_text self.old text.now) }
        ensures memory { OnErr result (¬ (HasText self.old text.now)) }
        ensures err { OnErr result (self.new ≡ self.old) }
    {
        if let Some(place) = self.texts.get_index_of(text) {
            return Ok(place);
        }
        let text = String::from_str(alloc, text)?;
        let (place, _) = self.texts.insert_full(text)?;
        Ok(place)
    }

    /// Returns the text that a cell stands for: none where no text has this number. Takes O(1).
    pub fn text(&self, number: i64) -> Option<&str>
        ensures { option_map (λ text. text.now) result ≡ text_of_cell self.now number }
    {
        let place = usize::try_from(number).ok()?;
        let text = self.texts.get_index(place)?;
        Some(text.as_str())
    }

    /// States that each text is UTF-8 and has one number, an i64. For proofs: it does nothing.
    pub fn texts_are_numbered(&self)
        ensures distinct { IsDistinct bytes_eq self.now }
        ensures utf8 { All IsUtf8 self.now }
        ensures few { length self.now < 2 ^ 63 }
    {
        let _ = self.texts.len();
    }

    /// Keeps the first `len` texts, and forgets the others.
    pub fn truncate(&mut self, len: usize)
        ensures { self.new ≡ take len self.old }
    {
        self.texts.truncate(len);
    }
}
