// Whether a model and values fit the symbols and the types of a problem.

ghost use Rattle.model_refuting.specs.Tests as tests;
ghost use Rattle.std.specs.Prelude.{◌≡◌, map};

use form_typed::Sort;
use model_table::{FunctionModel, Model, PredicateModel, TruthEntry, ValueEntry};
use pri_typing::{Problem, Symbol};

/// A row of a model.
trait Row {
    ghost use Rattle.std.specs.Prelude.{ℤ, List};

    ghost at: { Self → List ℤ };

    /// Its arguments.
    fn place(&self) -> &[i128]
        ensures { result.now ≡ at self.now };
}

impl Row for ValueEntry {
    ghost at = { λ r. r.at };

    fn place(&self) -> &[i128] {
        self.at.as_slice()
    }
}

impl Row for TruthEntry {
    ghost at = { λ r. r.at };

    fn place(&self) -> &[i128] {
        self.at.as_slice()
    }
}

/// What a model says of a symbol.
trait Rows {
    ghost use Rattle.model_refuting.specs.Tests.{are_arguments};
    ghost use Rattle.std.specs.Prelude.{ℤ, List};

    ghost places: { Self → List (List ℤ) };

    /// Whether its rows have n arguments each and are strictly sorted by them.
    fn fits(&self, n: u32) -> bool
        ensures { result ≡ are_arguments n (places self.now) };
}

impl Rows for FunctionModel {
    ghost use Rattle.model_refuting.specs.Refuting.{function_places};

    ghost places = { function_places };

    fn fits(&self, n: u32) -> bool {
        are_arguments(n, self.rows.as_slice())
    }
}

impl Rows for PredicateModel {
    ghost use Rattle.model_refuting.specs.Refuting.{predicate_places};

    ghost places = { predicate_places };

    fn fits(&self, n: u32) -> bool {
        are_arguments(n, self.rows.as_slice())
    }
}

/// Whether each row has n arguments.
fn have_arguments<R: Row>(n: u32, rows: &[R]) -> bool
    ensures { result ≡ tests.have_arguments n (map R.at rows.now) }
{
    let mut rows = rows;
    while let Some((row, more)) = rows.split_first() {
        if row.place().len() != n as usize {
            return false;
        }
        rows = more;
    }
    true
}

/// Whether each row stands before the next one by its arguments.
fn are_rising<R: Row>(rows: &[R]) -> bool
    ensures { result ≡ tests.are_rising (map R.at rows.now) }
{
    let mut rows = rows;
    while let Some((row, more)) = rows.split_first() {
        let Some((next, _)) = more.split_first() else {
            return true;
        };
        if !row.place().cmp(next.place()).is_lt() {
            return false;
        }
        rows = more;
    }
    true
}

/// Whether the rows have n arguments each and are strictly sorted by them.
fn are_arguments<R: Row>(n: u32, rows: &[R]) -> bool
    ensures { result ≡ tests.are_arguments n (map R.at rows.now) }
{
    have_arguments(n, rows) && are_rising(rows)
}

/// Whether there are no more tables than symbols, and each fits the symbol at its place.
fn all_fit<T: Rows>(symbols: &[Symbol], tables: &[T]) -> bool
    ensures { result ≡ tests.all_fit symbols.now (map T.places tables.now) }
{
    let mut symbols = symbols;
    let mut tables = tables;
    while let Some((table, rest)) = tables.split_first() {
        let Some((symbol, more)) = symbols.split_first() else {
            return false;
        };
        if !table.fits(symbol.arity) {
            return false;
        }
        symbols = more;
        tables = rest;
    }
    true
}

/// Whether v is a value of the type.
fn is_value(sort: Sort, v: i128) -> bool
    ensures { result ≡ tests.is_value sort v }
{
    match sort {
        Sort::Int => true,
        Sort::Nat => 0 <= v,
        Sort::Range(a, b) => a <= v && v <= b,
    }
}

/// Whether there are as many integers as types, and each is a value of the type at its place.
fn are_values(types: &[Sort], values: &[i128]) -> bool
    ensures { result ≡ tests.are_values types.now values.now }
{
    let mut types = types;
    let mut values = values;
    while let Some((sort, more)) = types.split_first() {
        let Some((v, rest)) = values.split_first() else {
            return false;
        };
        if !is_value(*sort, *v) {
            return false;
        }
        types = more;
        values = rest;
    }
    values.is_empty()
}

/// Whether the problem has no existential constants, each universal constant has a value of its type, and the model fits the
/// problem's symbols.
pub fn is_candidate(problem: &Problem, model: &Model, universals: &[i128]) -> bool
    ensures { result ≡ tests.is_candidate problem.now model.now universals.now }
{
    problem.existentials.len() == 0
        && universals.len() == problem.universals.len()
        && are_values(problem.universal_types.as_slice(), universals)
        && all_fit(problem.functions.as_slice(), model.functions.as_slice())
        && all_fit(problem.predicates.as_slice(), model.predicates.as_slice())
}
