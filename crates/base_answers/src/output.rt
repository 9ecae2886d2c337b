// What a job answers.

/// An exit status and the text that goes with it.
#[derive(Debug, Drop)]
pub struct Output {
    pub status: u8,
    pub text: Vec<u8>,
}
