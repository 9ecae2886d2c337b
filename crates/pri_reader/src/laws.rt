// What the grammar and the machine that reads it have to do with each other.

ghost use Rattle.pri_reader.specs.Grammar.{IsFile, Setting};
ghost use Rattle.pri_reader.specs.MachineStates.{a_block};
ghost use Rattle.pri_reader.specs.Machine.{run};
ghost use Rattle.pri_reader.specs.declared.tree.File.{File};
ghost use Rattle.pri_tokens.specs.declared.terminals.Lexeme.{Lexeme};
ghost use Rattle.std.specs.Prelude.{◌≡◌, List, [], ℕ};

/// Tokens are at most one file, whatever is asked of their numerals and levels.
#[tactic(auto, using(crate::proofs::CompleteBlocks::one_file))]
pub fn one_file_law()
    ensures { (s : Setting) (tokens : List Lexeme) (f : File) (g : File) → IsFile s f tokens → IsFile s g tokens → f ≡ g }
{}

/// The machine reads tokens as a file exactly where they are derived as that file.
#[tactic(auto, using(crate::proofs::CompleteBlocks::file_complete))]
pub fn machine_law()
    ensures complete { (s : Setting) (end : ℕ) (file : File) (tokens : List Lexeme) → IsFile s file tokens → run s end tokens (a_block []) [] ≡ Ok file }
    ensures sound { (s : Setting) (end : ℕ) (file : File) (tokens : List Lexeme) → run s end tokens (a_block []) [] ≡ Ok file → IsFile s file tokens }
{}
