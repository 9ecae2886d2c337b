// Where sorts and terms stand in the commands of a script and in terms (SMT-LIB 2.6, sections 3.6 and 3.9).

ghost use Rattle.std.specs.Prelude.{◌≡◌};
ghost use Rattle.smt_lists.specs.Expressions.{expr};
ghost use Rattle.smt_shorthand.specs.Places.{after_word, after_head, behind, first};

use smt_commands::symbol;
use smt_lists::Sexp;

/// What an S-expression is by its place.
#[derive(Clone, Copy, Debug, PartialEq, Eq)]
pub enum Part {
    /// A sort.
    Sort,
    /// A list of these members.
    Members(Row),
    /// Neither: no sort and no term stands in it.
    Other,
}

/// What the members of a list are, from one of them on.
#[derive(Clone, Copy, Debug, PartialEq, Eq)]
pub enum Row {
    /// Neither sorts nor terms.
    Others,
    /// The word of a command, and what belongs to it.
    Command,
    /// The head of a term, and what belongs to it.
    Term,
    /// Sorts.
    Sorts,
    /// Terms.
    Terms,
    /// Variables: lists of a name and its sort.
    Variables,
    /// Bindings: lists of a name and its term.
    Bindings,
    /// Signatures: lists of a name, variables and a sort.
    Signatures,
    /// A sort, and nothing more.
    Sort,
    /// A term, and nothing more.
    OneTerm,
    /// A list of terms, and nothing more.
    ListOfTerms,
    /// A name and its sort.
    NameSort,
    /// A name and its term.
    NameTerm,
    /// Sorts in a list, and a sort.
    SortsSort,
    /// A name, sorts in a list, and a sort.
    NameSortsSort,
    /// Variables in a list, and a sort.
    VariablesSort,
    /// A name, variables in a list, and a sort.
    NameVariablesSort,
    /// A sort and a term.
    SortTerm,
    /// A name, a sort and a term.
    NameSortTerm,
    /// Variables in a list, a sort and a term.
    VariablesSortTerm,
    /// A name, variables in a list, a sort and a term.
    NameVariablesSortTerm,
    /// Variables in a list, and a term.
    VariablesTerm,
    /// Bindings in a list, and a term.
    BindingsTerm,
    /// Signatures in a list, and terms in a list.
    SignaturesTerms,
}

/// What the first member is.
pub fn first(row: Row) -> Part
    ensures { result ≡ first row }
{
    match row {
        Row::Others
        | Row::Command
        | Row::NameSort
        | Row::NameTerm
        | Row::NameSortsSort
        | Row::NameVariablesSort
        | Row::NameSortTerm
        | Row::NameVariablesSortTerm => Part::Other,
        Row::Term | Row::Terms | Row::OneTerm => Part::Members(Row::Term),
        Row::Sorts | Row::Sort | Row::SortTerm => Part::Sort,
        Row::Variables => Part::Members(Row::NameSort),
        Row::Bindings => Part::Members(Row::NameTerm),
        Row::Signatures => Part::Members(Row::NameVariablesSort),
        Row::ListOfTerms => Part::Members(Row::Terms),
        Row::SortsSort => Part::Members(Row::Sorts),
        Row::VariablesSort | Row::VariablesSortTerm | Row::VariablesTerm => {
            Part::Members(Row::Variables)
        }
        Row::BindingsTerm => Part::Members(Row::Bindings),
        Row::SignaturesTerms => Part::Members(Row::Signatures),
    }
}

/// What the members after the first one are.
pub fn behind(row: Row, head: &Sexp) -> Row
    ensures { result ≡ behind row (expr head.now) }
{
    match row {
        Row::Command => after_word(head),
        Row::Term => after_head(head),
        Row::Others | Row::Sort | Row::OneTerm | Row::ListOfTerms => Row::Others,
        Row::Sorts | Row::Terms | Row::Variables | Row::Bindings | Row::Signatures => row,
        Row::NameSort | Row::SortsSort | Row::VariablesSort => Row::Sort,
        Row::NameTerm | Row::SortTerm | Row::VariablesTerm | Row::BindingsTerm => Row::OneTerm,
        Row::NameSortsSort => Row::SortsSort,
        Row::NameVariablesSort => Row::VariablesSort,
        Row::NameSortTerm | Row::VariablesSortTerm => Row::SortTerm,
        Row::NameVariablesSortTerm => Row::VariablesSortTerm,
        Row::SignaturesTerms => Row::ListOfTerms,
    }
}

/// What stands after the word of a command.
fn after_word(word: &Sexp) -> Row
    ensures { result ≡ after_word (expr word.now) }
{
    let Some(name) = symbol(word) else {
        return Row::Others;
    };
    let text = name.text;
    if text == b"assert".as_slice() {
        Row::OneTerm
    } else if text == b"declare-const".as_slice() {
        Row::NameSort
    } else if text == b"declare-fun".as_slice() {
        Row::NameSortsSort
    } else if text == b"define-const".as_slice() {
        Row::NameSortTerm
    } else if text == b"define-fun".as_slice() || text == b"define-fun-rec".as_slice() {
        Row::NameVariablesSortTerm
    } else if text == b"define-funs-rec".as_slice() {
        Row::SignaturesTerms
    } else if text == b"check-sat-assuming".as_slice() {
        Row::ListOfTerms
    } else {
        Row::Others
    }
}

/// What stands after the head of a term.
fn after_head(head: &Sexp) -> Row
    ensures { result ≡ after_head (expr head.now) }
{
    let Some(name) = symbol(head) else {
        return Row::Terms;
    };
    let text = name.text;
    if text == b"let".as_slice() {
        Row::BindingsTerm
    } else if text == b"forall".as_slice() || text == b"exists".as_slice() {
        Row::VariablesTerm
    } else if text == b"!".as_slice() {
        Row::OneTerm
    } else {
        Row::Terms
    }
}
