// The first refusal of a file.

ghost use Rattle.pri_reader.specs.First.{AsksNumber, Completes, IsFirstRefusal, ReachesFrames};
ghost use Rattle.pri_reader.specs.Grammar.{IsFile, Setting};
ghost use Rattle.pri_reader.specs.MachineStates.{Frame, Want, a_block};
ghost use Rattle.pri_reader.specs.Machine.{run};
ghost use Rattle.pri_reader.specs.declared.tree.File.{File};
ghost use Rattle.pri_reader.specs.declared.tree.ReadRefusal.{ReadRefusal};
ghost use Rattle.pri_tokens.specs.declared.terminals.Lexeme.{Lexeme};
ghost use Rattle.std.specs.Prelude.{◌≡◌, ◌↔◌, Err, List, [], ℕ};

/// Each state that the machine comes to can be completed: some tokens end it in a file, where nothing limits numerals and
/// levels.
pub fn completion_law()
    ensures { (s : Setting) (want : Want) (frames : List Frame) → ReachesFrames s want frames → Completes s want frames }
{}

/// The machine refuses tokens with exactly their first refusal. Tokens have at most one, and exactly those that are no file
/// have one.
pub fn first_refusal_law()
    ensures exact { (s : Setting) (end : ℕ) (tokens : List Lexeme) (e : ReadRefusal) → AsksNumber s.small → AsksNumber s.shallow → (run s end tokens (a_block []) [] ≡ Err e) ↔ IsFirstRefusal s end tokens e }
    ensures unique { (s : Setting) (end : ℕ) (tokens : List Lexeme) (e : ReadRefusal) (f : ReadRefusal) → AsksNumber s.small → AsksNumber s.shallow
        → IsFirstRefusal s end tokens e → IsFirstRefusal s end tokens f → e ≡ f }
    ensures some { (s : Setting) (end : ℕ) (tokens : List Lexeme) → AsksNumber s.small → AsksNumber s.shallow → ((file : File) → IsFile s file tokens → ⊥)
        → (e : ReadRefusal) × IsFirstRefusal s end tokens e }
    ensures none { (s : Setting) (end : ℕ) (tokens : List Lexeme) (file : File) (e : ReadRefusal) → AsksNumber s.small → AsksNumber s.shallow
        → IsFile s file tokens → IsFirstRefusal s end tokens e → ⊥ }
{}
