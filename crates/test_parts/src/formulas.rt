// Formulas and the closures that are stored beside them.

mod stored;
mod values;
