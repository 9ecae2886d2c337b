// A dialogue between two commands, and how a piece of the input is answered.

ghost use Rattle.base_limits.specs.Limits.{most_budget};
ghost use Rattle.job_dialogue.specs.Dialogue.{IsDone, IsReply};
ghost use Rattle.job_dialogue.specs.Held.{first_held, passing};
ghost use Rattle.job_dialogue.specs.Views.{held_of, outcome_of};
ghost use Rattle.std.specs.Prelude.{◌≡◌, ◌≤◌, IfOk, drop, take};

use crate::judging::ask;
use crate::kinds::{Kind, Reading, read};
use crate::levels::{behaving, ending, leaving, opening, restarting, succeeding};
use crate::spots::{Spot, first_spot, spot_after};
use base_watch::Watch;
use linear_term::Memory;
use std::alloc::Global;

/// What is held between two commands.
#[derive(Drop)]
pub struct Dialogue {
    /// The declarations, definitions and assertions in force, one after the other.
    pub(crate) text: Vec<u8>,
    /// For each open level, the outermost first, how many bytes of them stood where it began.
    pub(crate) marks: Vec<usize>,
    /// The last check, where nothing but questions came after it.
    pub(crate) checked: Option<Vec<u8>>,
    /// Whether a command without another answer is answered `success`.
    pub(crate) succeeds: bool,
    /// Whether there was an `exit`.
    pub(crate) ended: bool,
    /// Where the next piece begins.
    pub(crate) spot: Spot,
}

/// What comes of a piece: the dialogue after it, and the answer.
#[derive(Drop)]
pub struct Reply {
    pub dialogue: Dialogue,
    pub text: Vec<u8>,
}

impl Dialogue {
    /// A dialogue in which nothing is said yet.
    pub fn new(alloc: Global) -> Dialogue
        ensures { held_of result ≡ first_held }
    {
        Dialogue {
            text: Vec::new(alloc),
            marks: Vec::new(alloc),
            checked: None,
            succeeds: false,
            ended: false,
            spot: first_spot(),
        }
    }

    /// Whether there was an `exit`.
    pub fn has_ended(&self) -> bool
        ensures { result ≡ (held_of self.now).ended }
    {
        self.ended
    }

    /// Answers a piece of the input: a list, with the blanks and comments before it. The one error is running out of memory.
    pub fn answer<X: Watch>(
        self,
        alloc: Global,
        piece: &[u8],
        budget: u64,
        watch: &mut X,
    ) -> Result<Reply, Memory>
        requires { budget ≤ most_budget }
        ensures { IfOk result (λ r. IsReply budget (held_of self) piece.now (held_of r.dialogue) r.text.items) }
    {
        let Reading { start, kind } = read(alloc, piece)?;
        let body = behind(piece, start);
        let dialogue = pass(self, front(piece, start))?;
        let Reply { dialogue, text } = answer_kind(alloc, dialogue, kind, body, budget, watch)?;
        Ok(Reply {
            dialogue: pass(dialogue, body)?,
            text,
        })
    }
}

/// Answers a command of this kind.
fn answer_kind<X: Watch>(
    alloc: Global,
    dialogue: Dialogue,
    kind: Kind,
    body: &[u8],
    budget: u64,
    watch: &mut X,
) -> Result<Reply, Memory>
    requires { budget ≤ most_budget }
    ensures { IfOk result (λ r. IsDone budget (held_of dialogue) kind body.now (outcome_of r)) }
{
    match kind {
        Kind::Opens(levels) => opening(alloc, dialogue, levels),
        Kind::Leaves(levels) => leaving(alloc, dialogue, levels),
        Kind::Restarts => restarting(alloc, dialogue),
        Kind::Ends => ending(alloc, dialogue),
        Kind::Succeeds(succeeds) => succeeding(alloc, dialogue, succeeds),
        Kind::Behaves => behaving(alloc, dialogue),
        Kind::Keeps | Kind::Asks | Kind::Shows | Kind::Says => ask(
            alloc, dialogue, kind, body, budget, watch,
        ),
    }
}

/// The dialogue after these bytes of the input.
fn pass(dialogue: Dialogue, bytes: &[u8]) -> Result<Dialogue, Memory>
    ensures { IfOk result (λ d. held_of d ≡ passing bytes.now (held_of dialogue)) }
{
    let mut dialogue = dialogue;
    dialogue.spot = spot_after(dialogue.spot, bytes)?;
    Ok(dialogue)
}

/// The bytes before this offset.
pub(crate) fn front(bytes: &[u8], at: u64) -> &[u8]
    ensures { result.now ≡ take at bytes.now }
{
    bytes.get(..at as usize).unwrap_or(bytes)
}

/// The bytes from this offset on.
fn behind(bytes: &[u8], at: u64) -> &[u8]
    ensures { result.now ≡ drop at bytes.now }
{
    bytes.get(at as usize..).unwrap_or(&[])
}
