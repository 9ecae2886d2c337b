// Who watches a run for its user: all that happens is counted, and where that is asked for, a line tells now and then how far it is.

use base_answers::put_all;
use base_watch::{Event, Stage, Watch};
use job_counts::Counts;
use job_messages::progress_line;
use prover_io::Sink;
use std::alloc::Global;

/// How many steps of the canonical run lie between two lines, at least; and how many of the clause search, whose steps are shorter.
const STEPS: u64 = 1_000_000;

const SEARCH_STEPS: u64 = 10_000_000;

/// How lines are put.
#[derive(Clone, Copy, Debug, PartialEq, Eq)]
pub enum Lines {
    /// None is put.
    None,
    /// One below the other.
    Below,
    /// Each in place of the one before: the sink is a terminal.
    Over,
}

/// Counts a run, and puts lines on it to a sink.
#[derive(Drop)]
pub struct Reporter<N> {
    alloc: Global,
    counts: Counts,
    sink: N,
    lines: Lines,
    // The steps of the stage in progress at which the next line is due, and whether a line stands that may be rewritten.
    due: u64,
    stands: bool,
}

impl<N: Sink> Reporter<N> {
    /// Who counts from now on, and puts lines to this sink.
    pub fn new(alloc: Global, sink: N, lines: Lines) -> Reporter<N> {
        Reporter {
            alloc,
            counts: Counts::new(),
            sink,
            lines,
            due: 0,
            stands: false,
        }
    }

    /// What was counted.
    pub fn counts(&self) -> &Counts {
        &self.counts
    }

    /// Takes away the line that may be rewritten: at the end of each stage, so before an answer is put.
    pub fn clear(&mut self) {
        if self.stands {
            let _ = put_all(&mut self.sink, b"\r\x1b[K");
            self.stands = false;
        }
    }

    /// Puts a line where the stage in progress has come to the steps at which one is due.
    fn pass(&mut self, steps: u64, every: u64) {
        if self.lines == Lines::None || steps < self.due {
            return;
        }
        self.due = steps.saturating_add(every);
        if steps > 0 {
            self.put_line();
        }
    }

    fn put_line(&mut self) {
        let Ok(line) = progress_line(self.alloc, &self.counts) else {
            return;
        };
        let is_over = self.lines == Lines::Over;
        if is_over {
            let _ = put_all(&mut self.sink, b"\r\x1b[K");
        }
        let _ = put_all(&mut self.sink, line.as_slice());
        if !is_over {
            let _ = put_all(&mut self.sink, b"\n");
        }
        self.stands = is_over;
    }
}

impl<N: Sink> Watch for Reporter<N> {
    fn tell(&mut self, event: Event) {
        self.counts.tell(event);
        match event {
            Event::Begins { stage, .. } => self.due = first_due(stage),
            Event::Ends { .. } => self.clear(),
            Event::Round { steps, .. } => self.pass(steps, STEPS),
            Event::Searched(progress) => self.pass(progress.steps, SEARCH_STEPS),
            _ => {}
        }
    }
}

/// After how many steps of a stage its first line is due.
fn first_due(stage: Stage) -> u64 {
    match stage {
        Stage::Clauses => SEARCH_STEPS,
        _ => STEPS,
    }
}
