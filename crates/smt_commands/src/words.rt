// The words with which commands begin.

ghost use Rattle.smt_commands.specs.Words.{word_of};
ghost use Rattle.std.specs.Prelude.{◌≡◌};

/// The commands by their words.
#[derive(Clone, Copy, Debug, PartialEq, Eq)]
pub enum Word {
    SetLogic,
    SetInfo,
    SetOption,
    DeclareConst,
    DeclareFun,
    DefineFun,
    DefineConst,
    Assert,
    CheckSat,
    CheckSatAssuming,
    Push,
    Pop,
    Reset,
    ResetAssertions,
    Echo,
    GetInfo,
    GetOption,
    GetModel,
    GetValue,
    GetAssignment,
    GetAssertions,
    GetUnsatCore,
    GetUnsatAssumptions,
    GetProof,
    Exit,
}

/// The command of a word.
pub fn find_word(text: &[u8]) -> Option<Word>
    ensures { result ≡ word_of text.now }
{
    if text == b"set-logic".as_slice() {
        return Some(Word::SetLogic);
    }
    if text == b"set-info".as_slice() {
        return Some(Word::SetInfo);
    }
    if text == b"set-option".as_slice() {
        return Some(Word::SetOption);
    }
    if text == b"declare-const".as_slice() {
        return Some(Word::DeclareConst);
    }
    if text == b"declare-fun".as_slice() {
        return Some(Word::DeclareFun);
    }
    if text == b"define-fun".as_slice() {
        return Some(Word::DefineFun);
    }
    if text == b"define-const".as_slice() {
        return Some(Word::DefineConst);
    }
    if text == b"assert".as_slice() {
        return Some(Word::Assert);
    }
    if text == b"check-sat".as_slice() {
        return Some(Word::CheckSat);
    }
    if text == b"check-sat-assuming".as_slice() {
        return Some(Word::CheckSatAssuming);
    }
    if text == b"push".as_slice() {
        return Some(Word::Push);
    }
    if text == b"pop".as_slice() {
        return Some(Word::Pop);
    }
    if text == b"reset".as_slice() {
        return Some(Word::Reset);
    }
    if text == b"reset-assertions".as_slice() {
        return Some(Word::ResetAssertions);
    }
    if text == b"echo".as_slice() {
        return Some(Word::Echo);
    }
    if text == b"get-info".as_slice() {
        return Some(Word::GetInfo);
    }
    if text == b"get-option".as_slice() {
        return Some(Word::GetOption);
    }
    if text == b"get-model".as_slice() {
        return Some(Word::GetModel);
    }
    if text == b"get-value".as_slice() {
        return Some(Word::GetValue);
    }
    if text == b"get-assignment".as_slice() {
        return Some(Word::GetAssignment);
    }
    if text == b"get-assertions".as_slice() {
        return Some(Word::GetAssertions);
    }
    if text == b"get-unsat-core".as_slice() {
        return Some(Word::GetUnsatCore);
    }
    if text == b"get-unsat-assumptions".as_slice() {
        return Some(Word::GetUnsatAssumptions);
    }
    if text == b"get-proof".as_slice() {
        return Some(Word::GetProof);
    }
    if text == b"exit".as_slice() {
        return Some(Word::Exit);
    }
    None
}
