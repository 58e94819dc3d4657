//! The names of the views of a shape, by which a word of a text is looked up.
ghost use Rattle.std.specs.Prelude.{◌≡◌, ◌≢◌, ◌<◌, ℕ, List, [], Some, None, length, string_bytes, IfOk, OnOk, OnErr, if◌then◌else◌};
ghost use Rattle.std.specs.Option.{option_or};
ghost use Rattle.std.specs.Str.{bytes_eq};
ghost use Rattle.wh_dag.specs.Written.{name_of, number_of};
ghost use Rattle.indexmap.specs.IndexMap.{get_by_text};

use indexmap::IndexMap;
use std::alloc::{AllocError, Global};
use std::marker::Model;
use std::str;
use wh_dag::Shape;

/// The names of the views of a shape by number, and the numbers by name. Seen as the list of the names.
#[derive(Debug, Drop)]
pub struct Names {
    names: Vec<String>,
    numbers: IndexMap<String, usize>,
}

impl Model for Names {
    ghost use Rattle.std.specs.Prelude.{List, ℕ};
    ghost use Rattle.wh_dag.specs.Written.{texts};
    ghost use Rattle.wh_text.specs.Inner.Names.{IsIndex};

    ghost Value = { List (List ℕ) };

    ghost view = { λ n. texts n.names.items };

    ghost invariant = { λ n. IsIndex n.numbers (texts n.names.items) };
}

impl Names {
    /// Makes the names of the views of this shape. Where it has no view, no memory is taken. Takes O(n) on average for n bytes of names.
    pub fn of(alloc: Global, shape: &Shape) -> Result<Names, AllocError>
        ensures names { IfOk result (λ names. names ≡ shape.now.names) }
        ensures memory { OnErr result (shape.now.names ≢ []) }
    {
        let mut names = Vec::new(alloc);
        let mut numbers = IndexMap::new(alloc);
        for view in 0..shape.len() {
            let name = shape.name(view);
            names.push(String::from_str(alloc, name)?)?;
            note(&mut numbers, String::from_str(alloc, name)?, view)?;
        }
        Ok(Names { names, numbers })
    }

    /// Returns how many views there are.
    pub fn len(&self) -> usize
        ensures { result ≡ length self.now }
    {
        self.names.len()
    }

    /// Returns the view whose name is this word, or `None` where it is no view's. A word that is not UTF-8 is no name. A name that several
    /// views had would mean the first of them. Takes O(n) on average for n bytes of the word.
    pub fn position(&self, word: &[u8]) -> Option<usize>
        ensures { result ≡ number_of self.now word.now }
    {
        let numbers = &self.numbers;
        match str::from_utf8(word) {
            Ok(name) => numbers.get(name).copied(),
            Err(_) => None,
        }
    }

    /// Returns the name of the view.
    pub fn name(&self, view: usize) -> &str
        requires { view < length self.now }
        ensures { result.now ≡ name_of self.now view }
    {
        self.names[view].as_str()
    }
}

/// Gives the name the number of this view, unless it has that of an earlier one. The type of a shape does not say that no two views have
/// one name.
fn note(numbers: &mut IndexMap<String, usize>, name: String, view: usize) -> Result<(), AllocError>
    ensures { OnOk result ((word : List ℕ) → get_by_text numbers.new word
        ≡ option_or (get_by_text numbers.old word) (if bytes_eq (string_bytes name) word then Some view else None)) }
{
    if numbers.contains_key(name.as_str()) {
        return Ok(());
    }
    numbers.insert(name, view)?;
    Ok(())
}
