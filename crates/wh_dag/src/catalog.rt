//! Catalogues: the views of a warehouse with their definitions, by which all changes of views are computed.
ghost use Rattle.std.specs.Prelude.{◌≡◌, ◌<◌, ◌≤◌, ◌↔◌, length, IfOk, OnErr, IsTrue, MatchOption, Some, None, false};
ghost use Rattle.wh_dag.specs.Catalog.{IsCatalog, width_of, combined_width, definition_of, is_base, columns};
ghost use Rattle.wh_dag.specs.CatalogParts.{FitTogether, Shows, catalog_of};

use crate::definition::Definition;
use crate::shape::Shape;
use crate::{dealt, fitting};
use std::alloc::{AllocError, Global};
use std::marker::Model;
use wh_formula::{RowTest, RowValue};

/// The views of a warehouse with their definitions. Each view has 1 to 64 columns, and each derived
/// view has a definition over its combined rows: a row of each of its children, one after another.
#[derive(Drop)]
pub struct Catalog<F: RowTest, G: RowValue> {
    shape: Shape,
    widths: Vec<usize>,
    definitions: Vec<Option<Definition<F, G>>>,
}

impl<F: RowTest, G: RowValue> Model for Catalog<F, G> {
    ghost use Rattle.wh_dag.specs.Catalog.{CatalogOf, IsCatalog};
    ghost use Rattle.wh_dag.specs.Inner.CatalogCode.{catalog_code};

    ghost Value = { CatalogOf };

    ghost coded = { catalog_code };

    ghost view = { λ c. record { views = c.shape; widths = c.widths.items; definitions = c.definitions.items } };

    ghost invariant = { λ c. IsCatalog (record { views = c.shape; widths = c.widths.items; definitions = c.definitions.items }) };
}

impl<F: RowTest + Drop, G: RowValue + Drop> Catalog<F, G> {
    /// Makes the catalogue of these views, with the width of each base view and the definition of each derived view, both rising. The parts
    /// have to fit together, which [`Catalog::fits`] tests. Fails for want of memory alone.
    pub fn new(
        alloc: Global,
        shape: Shape,
        widths: Vec<usize>,
        definitions: Vec<Definition<F, G>>,
    ) -> Result<Catalog<F, G>, AllocError>
        requires { FitTogether shape widths.items definitions.items }
        ensures shows { IfOk result (λ c. Shows c shape widths.items definitions.items) }
        ensures made { IfOk result (λ c. c ≡ catalog_of shape widths.items definitions.items) }

        // Without a view no memory is taken.
        ensures memory { OnErr result (0 < length shape.children) }
    {
        let definitions = dealt::definitions(alloc, shape.child_lists(), definitions)?;
        let widths = dealt::widths(alloc, &definitions, widths)?;
        Ok(Catalog {
            shape,
            widths,
            definitions,
        })
    }
}

impl<F: RowTest, G: RowValue> Catalog<F, G> {
    /// Returns whether these parts make a catalogue. There has to be a width for each base view and a definition for each derived one. Each
    /// view needs 1 to 64 columns, and each definition has to be over rows of its view's combined width.
    pub fn fits(shape: &Shape, widths: &[usize], definitions: &[Definition<F, G>]) -> bool
        ensures { IsTrue result ↔ FitTogether shape.now widths.now definitions.now }
    {
        fitting::fits(shape, widths, definitions)
    }

    /// Returns the views by name, with those that each is over.
    pub fn shape(&self) -> &Shape
        ensures views { result.now ≡ self.now.views }
        ensures catalog { IsCatalog self.now }
    {
        &self.shape
    }

    /// Returns whether the view is over no view.
    pub fn is_base(&self, view: usize) -> bool
        requires { view < length self.now.views.children }
        ensures { result ≡ is_base self.now view }
    {
        self.shape.children(view).is_empty()
    }

    /// Returns how many columns the view has.
    pub fn width(&self, view: usize) -> usize
        requires { view < length self.now.views.children }
        ensures width { result ≡ width_of self.now view }
        ensures some { 1 ≤ result }
        ensures few { result ≤ 64 }
    {
        self.widths[view]
    }

    /// Returns how many cells the view's combined rows have: the widths of its children together, 0 for a base view.
    pub fn combined_width(&self, view: usize) -> usize
        requires { view < length self.now.views.children }
        ensures { result ≡ combined_width self.now view }
    {
        match &self.definitions[view] {
            Some(definition) => definition.width(),
            None => 0,
        }
    }

    /// Returns how the view is defined; none for a base view.
    pub fn definition(&self, view: usize) -> Option<&Definition<F, G>>
        requires { view < length self.now.views.children }
        ensures definition { MatchOption result (definition_of self.now view ≡ None)
            (λ definition. definition_of self.now view ≡ Some definition.now) }
        ensures catalog { IsCatalog self.now }
    {
        self.definitions[view].as_ref()
    }

    /// Returns how a derived view is defined.
    pub fn derived(&self, view: usize) -> &Definition<F, G>
        requires view { view < length self.now.views.children }
        requires derived { is_base self.now view ≡ false }
        ensures definition { definition_of self.now view ≡ Some result.now }
        ensures width { result.now.width ≡ combined_width self.now view }
        ensures columns { columns result.now.output ≡ width_of self.now view }
    {
        self.definition(view).unwrap()
    }
}
