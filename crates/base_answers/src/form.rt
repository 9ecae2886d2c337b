// The forms of a printed proof.

/// In what form a proof is printed after an answer.
#[derive(Clone, Copy, Debug, PartialEq, Eq)]
pub enum ProofForm {
    /// As a text of the first format, with each log where it stands.
    Whole,
    /// As a text of the second format, with a log that stands on several lines once.
    Short,
}
