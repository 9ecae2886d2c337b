// What the program can be asked for.

ghost use Rattle.std.specs.Prelude.{◌≡◌};

use base_answers::ProofForm;
use std::alloc::AllocError;

/// A job that words name.
#[derive(Debug, Drop)]
pub enum Job {
    /// To say whether the problem in this file is valid, within a budget, and with its proof in a form, where one is asked for; by the
    /// canonical run of the calculus alone, where that is asked for; and with values that refute it, also where it has neither predicates
    /// nor functions, where they are asked for.
    Solve {
        file: String,
        budget: u64,
        asked: Option<ProofForm>,
        calculus: bool,
        shows: bool,
    },
    /// To give the constraint of the problem in this file, within a budget.
    Elim {
        file: String,
        budget: u64,
    },
    /// To find values of the existential constants at which the problem in this file holds, within a budget, and with the proof where one
    /// is asked for.
    Find {
        file: String,
        budget: u64,
        proves: bool,
    },
    /// To answer the checks of the script in this file, each within a budget.
    Smt {
        file: String,
        budget: u64,
    },
    /// To give the least value of this term where the problem in this file holds, within a budget.
    Least {
        file: String,
        term: String,
        budget: u64,
    },
    /// To check the proof in the second file against the problem in the first.
    Check {
        file: String,
        proof: String,
    },
    /// To solve the problem of this size that the program makes itself, within a budget.
    Drill {
        count: u32,
        budget: u64,
    },
}

/// Why words give no job.
#[derive(Clone, Copy, Debug, PartialEq, Eq)]
pub enum WordsFault {
    /// They name none.
    Words,
    Memory,
}

impl From<AllocError> for WordsFault {
    ghost use Rattle.job_words.specs.declared.jobs.WordsFault.{WordsFault};

    ghost from_gives = { λ _ e. e ≡ WordsFault.Memory };

    fn from(_error: AllocError) -> WordsFault {
        WordsFault::Memory
    }
}
