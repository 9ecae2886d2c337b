// How a proof is told.

ghost use Rattle.base_answers.specs.Answer.{answer_of};
ghost use Rattle.proof_tokens.specs.Spellings.{spelled};
ghost use Rattle.proof_tree.specs.Views.{proof_of};
ghost use Rattle.job_solve.specs.Proved.{IsProofTold, PrintsTree, extended, form_text};
ghost use Rattle.job_solve.specs.Shaping.{IsPrintable};
ghost use Rattle.std.specs.Prelude.{◌≡◌, ◌++◌, IfOk, OnOk, List, ℕ};
ghost use Rattle.proof_grammar.specs.Shaped.{IsTextOfProof, IsWritable};

use base_answers::{Output, ProofForm};
use linear_term::Memory;
use proof_printer::{know_typed, write_short, write_tree};
use proof_tree::Tree;
use std::alloc::Global;

/// The answer with the proof after it that the tree is, in the form that is asked for, if one is.
pub fn with_proof(
    alloc: Global,
    plain: Output,
    tree: &Tree,
    asked: Option<ProofForm>,
) -> Result<Output, Memory>
    requires { IsPrintable tree.now }
    ensures { IfOk result (λ output. IsProofTold asked tree.now (answer_of plain) (answer_of output)) }
{
    match asked {
        Some(form) => print_proof(alloc, plain, tree, form),
        None => Ok(plain),
    }
}

// The answer with this proof after it.
fn print_proof(alloc: Global, plain: Output, tree: &Tree, form: ProofForm) -> Result<Output, Memory>
    requires { IsPrintable tree.now }
    ensures { IfOk result (λ output. (part : List ℕ) × PrintsTree form tree.now part × (answer_of output ≡ extended (answer_of plain) part)) }
{
    know_typed(tree);
    let Output { status, text } = plain;
    let mut whole = text;
    whole.extend_from_slice(b"proof:\n")?;
    write_form(alloc, tree, form, &mut whole)?;
    Ok(Output {
        status,
        text: whole,
    })
}

// Writes the text of a proof in this form after a text.
fn write_form(alloc: Global, tree: &Tree, form: ProofForm, out: &mut Vec<u8>) -> Result<(), Memory>
    requires { IsWritable tree.now.charges (proof_of tree.now.root) tree.now.conclusion }
    ensures text { OnOk result (out.new.items ≡ out.old.items ++ spelled (form_text form tree.now.charges (proof_of tree.now.root) tree.now.conclusion)) }
    ensures holds { OnOk result (IsTextOfProof (spelled (form_text form tree.now.charges (proof_of tree.now.root) tree.now.conclusion)) tree.now.charges (proof_of tree.now.root) tree.now.conclusion) }
{
    match form {
        ProofForm::Whole => write_tree(alloc, tree, out),
        ProofForm::Short => write_short(alloc, tree, out),
    }
}
