// A proof's text, line by line.

ghost use Rattle.proof_file.specs.Body.{body};
ghost use Rattle.proof_file.specs.Coming.{HasNone, HoldsAll};
ghost use Rattle.proof_file.specs.Refused.{RefusesProofFile};
ghost use Rattle.proof_tokens.specs.Reading.{Cuts};
ghost use Rattle.std.specs.Prelude.{◌≡◌, IfErr, IfOk, MatchOption};
ghost use Rattle.proof_grammar.specs.Lines.{line_text};
ghost use Rattle.proof_grammar.specs.Owed.{Pays, Shallow};
ghost use Rattle.proof_grammar.specs.Refusals.{RefusesText};

use crate::file::body;
use crate::refusal::{ProofRefusal, in_file};
use crate::source::{Line, ProofLines};
use base_budget::ElimLog;
use linear_term::Memory;
use proof_grammar::{Fault, Owed, TextLine, Walk, check_text, line_for};
use proof_tree::Conclusion;
use sqlite_items::Items;
use std::alloc::Global;

/// The lines of a proof's text that are still to come, its parts, the log that came last, and the conclusion once it has come.
#[derive(Drop)]
pub struct Lines<'a> {
    rest: &'a [u8],
    walk: Walk,
    charges: u64,
    /// The logs that the text writes once.
    parts: Items<ElimLog>,
    /// The part that the last log uses, where it uses one.
    used: Option<u32>,
    /// The last log that was written where it stands.
    own: ElimLog,
    conclusion: Conclusion,
}

/// The line that is owed, and the text after it; none where the text has none there.
fn owed_line(alloc: Global, owed: Owed, text: &[u8]) -> Result<Option<(TextLine, &[u8])>, Memory>
    ensures { IfOk result (λ r. MatchOption r (HasNone owed text.now) (λ x. Pays Shallow owed x.0 × Cuts (line_text x.0) text.now x.1.now)) }
{
    match line_for(alloc, owed, text) {
        Ok(found) => Ok(Some(found)),
        Err(Fault::Memory) => Err(Memory),
        Err(Fault::Syntax(_)) => Ok(None),
        Err(Fault::Deep(_)) => Ok(None),
    }
}

impl<'a> Lines<'a> {
    ghost use Rattle.proof_file.specs.Coming.{ended, is_told, IsFull, KeepsEnd, log_said, meant};
    ghost use Rattle.proof_file.specs.Told.{KeepsLog, TellsLine};
    ghost use Rattle.std.specs.Prelude.{is_some};

    /// Reads the whole text of a proof once, and keeps no tree of it.
    fn of_text(alloc: Global, text: &'a [u8]) -> Result<Lines<'a>, Fault>
        ensures found { IfOk result (λ s. HoldsAll text.now s.charges s.parts s.walk s.rest.now) }
        ensures refused { IfErr result (RefusesText text.now) }
    {
        let (opening, rest) = check_text(alloc, text)?;
        Ok(Lines {
            rest,
            walk: Walk::new(alloc, opening.parts.len()),
            charges: opening.charges,
            parts: opening.parts,
            used: None,
            own: ElimLog {
                entries: Items::new(alloc),
            },
            conclusion: Conclusion::Solution(Items::new(alloc)),
        })
    }

    /// Reads the whole proof of a file once, and keeps no tree of it.
    pub fn new(alloc: Global, bytes: &'a [u8]) -> Result<Lines<'a>, ProofRefusal>
        ensures found { IfOk result (λ s. HoldsAll (body bytes.now) s.charges s.parts s.walk s.rest.now) }
        ensures refused { IfErr result (RefusesProofFile bytes.now) }
    {
        match Lines::of_text(alloc, body(bytes)) {
            Ok(lines) => Ok(lines),
            Err(fault) => Err(in_file(bytes, fault)),
        }
    }

    /// How many charges the proof may cost.
    pub fn charges(&self) -> u64
        ensures { result ≡ self.now.charges }
    {
        self.charges
    }

    /// The line with the entries of its part, where it is a conclusion that uses one.
    fn in_full(&self, alloc: Global, line: TextLine) -> Result<TextLine, Memory>
        ensures { IfOk result (λ l. l ≡ ended self.now.parts line) }
    {
        let TextLine::EndOf(part) = line else {
            return Ok(line);
        };
        let log = match self.parts.as_slice().get(part as usize) {
            Some(log) => log.copy(alloc)?,
            None => ElimLog {
                entries: Items::new(alloc),
            },
        };
        Ok(TextLine::End(Conclusion::Nothing(log)))
    }

    /// What a line tells; a log and a conclusion are kept.
    fn told(&mut self, line: TextLine) -> Option<Line>
        ensures told { IsFull self.old.parts line → TellsLine result (log_said self.new.parts self.new.used self.new.own) self.new.conclusion (meant self.old.parts line) }
        ensures log { KeepsLog result (log_said self.old.parts self.old.used self.old.own) (log_said self.new.parts self.new.used self.new.own) }
        ensures some { is_some result ≡ is_told line }
        ensures conclusion { KeepsEnd result self.old.conclusion self.new.conclusion }
        ensures charges { self.new.charges ≡ self.old.charges }
        ensures parts { self.new.parts ≡ self.old.parts }
        ensures walk { self.new.walk ≡ self.old.walk }
        ensures rest { self.new.rest ≡ self.old.rest }
    {
        match line {
            TextLine::Row(rule, count) => Some(Line::Row(rule, count)),
            TextLine::Log(log) => {
                self.used = None;
                self.own = log;
                Some(Line::Log)
            }
            TextLine::LogOf(part) => {
                self.used = Some(part);
                Some(Line::Log)
            }
            TextLine::Gives(clauses) => Some(Line::Gives(clauses)),
            TextLine::End(conclusion) => {
                self.conclusion = conclusion;
                Some(Line::End)
            }
            _ => None,
        }
    }
}

impl<'a> ProofLines for Lines<'a> {
    ghost use Rattle.proof_file.specs.Coming.{Coming, KeepsEnd, log_said};
    ghost use Rattle.proof_file.specs.Told.{KeepsLog, TellsLine};
    ghost use Rattle.std.specs.Prelude.{◌≡◌, ◌∷◌, [], IfErr, IfOk, List, None};
    ghost use Rattle.proof_grammar.specs.declared.lines.TextLine.{TextLine};

    ghost coming = { λ s ls. Coming s.parts s.walk s.rest.now ls };

    ghost log_of = { λ s. log_said s.parts s.used s.own };

    ghost end_of = { λ s. s.conclusion };

    fn next(&mut self, alloc: Global) -> Result<Option<Line>, Memory>
        ensures line { (l : TextLine) (ls : List TextLine) → Coming self.old.parts self.old.walk self.old.rest.now (l ∷ ls) → IfOk result (λ x. TellsLine x (log_said self.new.parts self.new.used self.new.own) self.new.conclusion l × Coming self.new.parts self.new.walk self.new.rest.now ls) }
        ensures log { IfOk result (λ x. KeepsLog x (log_said self.old.parts self.old.used self.old.own) (log_said self.new.parts self.new.used self.new.own)) }
        ensures conclusion { IfOk result (λ x. KeepsEnd x self.old.conclusion self.new.conclusion) }
        ensures charges { self.new.charges ≡ self.old.charges }
        ensures end { Coming self.old.parts self.old.walk self.old.rest.now [] → IfOk result (λ x. (x ≡ None) × (self.new ≡ self.old)) }
        ensures memory { IfErr result (λ _. self.new ≡ self.old) }
    {
        let Some(owed) = self.walk.owed() else {
            return Ok(None);
        };
        let Some((line, behind)) = owed_line(alloc, owed, self.rest)? else {
            return Ok(None);
        };
        let full = self.in_full(alloc, line)?;
        self.walk.pay(owed, &full)?;
        self.rest = behind;
        Ok(self.told(full))
    }

    fn log(&self) -> &ElimLog
        ensures { result.now ≡ log_said self.now.parts self.now.used self.now.own }
    {
        let Some(part) = self.used else {
            return &self.own;
        };
        self.parts
            .as_slice()
            .get(part as usize)
            .unwrap_or(&self.own)
    }

    fn conclusion(&self) -> &Conclusion
        ensures { result.now ≡ self.now.conclusion }
    {
        &self.conclusion
    }
}
