// What a dialogue means, each the contract of a function with nothing to do.

ghost use Rattle.form_typed.specs.Truth.{Meaning};
ghost use Rattle.job_dialogue.specs.Dialogue.{IsDialogue, IsReply};
ghost use Rattle.job_dialogue.specs.Held.{Held};
ghost use Rattle.job_dialogue.specs.Laws.{HasBegun, IsCheckTold};
ghost use Rattle.job_dialogue.specs.Pieces.{cut_of};
ghost use Rattle.job_dialogue.specs.declared.kinds.Kind.TheVariants as kind;
ghost use Rattle.std.specs.List.{concat};
ghost use Rattle.std.specs.Prelude.{◌≡◌, ◌++◌, ℕ, List, drop};

use job_smt::meaning_law;

/// What has been answered at any time depends on the pieces that were read until then, and on no later one.
#[tactic(auto, using(crate::proofs::Begun::dialogue_begun))]
pub fn begun_law()
    ensures { (budget : ℕ) (first more : List (List ℕ)) (h : Held) (text : List ℕ) → IsDialogue budget (first ++ more) h text → HasBegun budget first text }
{}

/// What answers a check of a dialogue says what it says in the script of the commands in force and the check: where it says `unsat`, nothing
/// satisfies the assertions in force, in any interpretation; where it says `sat`, a finite interpretation and some integers do.
pub fn check_law()
    ensures { (w : Meaning) (budget : ℕ) (h : Held) (piece : List ℕ) (next : Held) (text : List ℕ) (reply : IsReply budget h piece next text) → reply.reading.kind ≡ kind.Asks
        → IsCheckTold w (h.text ++ drop reply.reading.start piece) text }
{
    meaning_law();
}

/// The pieces of an input, and what is left of it, are all its bytes in their order.
#[tactic(auto, using(crate::proofs::Begun::pieces_joined))]
pub fn pieces_law()
    ensures { (bytes : List ℕ) → concat (cut_of bytes).pieces ++ (cut_of bytes).rest ≡ bytes }
{}
