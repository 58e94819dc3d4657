//! Reads of a catalogue which views there are, and which views each is over.
ghost use Rattle.std.specs.Prelude.{◌≡◌, ◌⊎◌, map, string_bytes, option_map, option_copied, IfOk, IfErr, Ok, Err, vec_len};
ghost use Rattle.std.specs.List.{AllPass, list_all};
ghost use Rattle.toml.specs.Data.{get_member};
ghost use Rattle.toml.specs.View.{table_view, view};
ghost use Rattle.wh_dag.specs.Written.{texts, written_list};
ghost use Rattle.wh_text.specs.NameForm.{is_name};
ghost use Rattle.wh_text_catalogue.specs.Catalogue.{document_of, array_of, is_table, views_of, view_name, named, texts_of, over_in, view_over, written_views, shape_written, shape_of};
ghost use Rattle.wh_text_catalogue.specs.Inner.Catalogue.{seen};

use crate::name_form::is_name;
use std::alloc::{AllocError, Global};
use toml::{Table, Value};
use wh_dag::Shape;
use wh_text::{Key, LoadFault};

/// The views by name, and what each is over, as they are written.
#[derive(Drop)]
struct Written {
    names: Vec<String>,
    over: Vec<Option<Vec<String>>>,
    ghost paired: { vec_len names ≡ vec_len over },
}

/// Returns the document that a catalogue's text is, else Toml.
pub(crate) fn document(alloc: Global, text: &[u8]) -> Result<Table, LoadFault>
    ensures ok { IfOk result (λ document. document_of text.now ≡ Ok (table_view document)) }
    ensures err { IfErr result (λ f. (f ≡ LoadFault.Memory) ⊎ (document_of text.now ≡ Err f)) }
{
    match toml::table_from_slice(alloc, text) {
        Ok(document) => Ok(document),
        Err(e) => {
            if e.is_memory() {
                return Err(LoadFault::Memory);
            }
            Err(LoadFault::Toml)
        }
    }
}

/// Returns what the document has at the key.
pub(crate) fn member<'a>(table: &'a Table, key: &str) -> Option<&'a Value>
    ensures { option_map (λ value. view value.now) result ≡ get_member key.now (table_view table.now) }
{
    table.get(key)
}

/// Returns the values of an array, none where it is no array.
pub(crate) fn array_of(value: &Value) -> Option<&Vec<Value>>
    ensures { option_map (λ values. map view values.now.items) result ≡ array_of (view value.now) }
{
    value.as_array()
}

/// Whether each of the values is a table.
fn are_tables(values: &[Value]) -> bool
    ensures { result ≡ list_all (λ value. is_table (view value)) values.now }
{
    values.iter().all(|value| value.is_table())
}

/// Returns the views of a document, in the order of their numbers, none where it has no array of tables at `view`.
pub(crate) fn views_of(document: &Table) -> Option<&Vec<Value>>
    ensures { option_map (λ views. map view views.now.items) result ≡ views_of (table_view document.now) }
{
    let views = array_of(member(document, "view")?)?;
    if are_tables(views) { Some(views) } else { None }
}

/// Returns the name of a view, none where it is missing or has another form.
pub(crate) fn view_name(value: &Value) -> Option<&str>
    ensures { option_copied result ≡ view_name (view value.now) }
{
    let name = value.get("name")?.as_str()?;
    if is_name(name) { Some(name) } else { None }
}

/// A copy of the name of a view, else Key(Name).
fn named(alloc: Global, value: &Value) -> Result<String, LoadFault>
    ensures ok { IfOk result (λ name. named (view value.now) ≡ Ok (string_bytes name)) }
    ensures err { IfErr result (λ f. (f ≡ LoadFault.Memory) ⊎ (named (view value.now) ≡ Err f)) }
{
    match view_name(value) {
        Some(name) => Ok(String::from_str(alloc, name)?),
        None => Err(LoadFault::Key(Key::Name)),
    }
}

/// The texts that the values are, none where one is no text.
fn texts(alloc: Global, values: &[Value]) -> Result<Option<Vec<String>>, AllocError>
    ensures { IfOk result (λ found. written_list found ≡ texts_of (map view values.now)) }
{
    let mut found = Vec::new(alloc);
    for value in values {
        let Some(text) = value.as_str() else {
            return Ok(None);
        };
        found.push(String::from_str(alloc, text)?)?;
    }
    Ok(Some(found))
}

/// The texts of an array, else Key(Over).
fn over_in(alloc: Global, value: &Value) -> Result<Vec<String>, LoadFault>
    ensures ok { IfOk result (λ over. over_in (view value.now) ≡ Ok (texts over.items)) }
    ensures err { IfErr result (λ f. (f ≡ LoadFault.Memory) ⊎ (over_in (view value.now) ≡ Err f)) }
{
    let Some(values) = array_of(value) else {
        return Err(LoadFault::Key(Key::Over));
    };
    match texts(alloc, values)? {
        Some(over) => Ok(over),
        None => Err(LoadFault::Key(Key::Over)),
    }
}

/// The names of the views that a view is over, none of a base view.
fn view_over(alloc: Global, value: &Value) -> Result<Option<Vec<String>>, LoadFault>
    ensures ok { IfOk result (λ over. view_over (view value.now) ≡ Ok (written_list over)) }
    ensures err { IfErr result (λ f. (f ≡ LoadFault.Memory) ⊎ (view_over (view value.now) ≡ Err f)) }
{
    match value.get("over") {
        Some(over) => Ok(Some(over_in(alloc, over)?)),
        None => Ok(None),
    }
}

/// The views by name, and what each is over, or the first fault among them.
fn written_views(alloc: Global, views: &[Value]) -> Result<Written, LoadFault>
    ensures ok { IfOk result (λ w. written_views (map view views.now) ≡ Ok (seen w.names.items w.over.items)) }
    ensures err { IfErr result (λ f. (f ≡ LoadFault.Memory) ⊎ (written_views (map view views.now) ≡ Err f)) }
{
    let mut names = Vec::new(alloc);
    let mut over = Vec::new(alloc);
    for value in views {
        let name = named(alloc, value)?;
        let own = view_over(alloc, value)?;
        names.push(name)?;
        over.push(own)?;
    }
    Ok(Written { names, over })
}

/// The shape that the written views make, or its first fault.
fn shape_written(alloc: Global, views: Written) -> Result<Shape, LoadFault>
    ensures ok { IfOk result (λ shape. shape_written (seen views.names.items views.over.items) ≡ Ok shape) }
    ensures err { IfErr result (λ f. (f ≡ LoadFault.Memory) ⊎ (shape_written (seen views.names.items views.over.items) ≡ Err f)) }
{
    let Written { names, over } = views;
    Ok(Shape::new(alloc, names, over)?)
}

/// Reads the shape of a catalogue, a text in TOML 1.1: the `name` and `over` of each view, and no other key.
/// Fails with the first fault: Toml; Key(View); view by view Key(Name), then Key(Over); and last the shape's own. Memory may come at any
/// point.
pub fn read_shape(alloc: Global, text: &[u8]) -> Result<Shape, LoadFault>
    ensures ok { IfOk result (λ shape. shape_of text.now ≡ Ok shape) }
    ensures named { IfOk result (λ shape. AllPass is_name shape.names) }
    ensures err { IfErr result (λ f. (f ≡ LoadFault.Memory) ⊎ (shape_of text.now ≡ Err f)) }
{
    let document = document(alloc, text)?;
    let Some(views) = views_of(&document) else {
        return Err(LoadFault::Key(Key::View));
    };
    let views = written_views(alloc, views)?;
    shape_written(alloc, views)
}
