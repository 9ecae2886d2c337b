// The file that bytes are, or why they are none.

ghost use Rattle.pri_reader.specs.Grammar.{IsFile};
ghost use Rattle.pri_reader.specs.Reading.{GivesFile, AnswersRefusal, file_setting};
ghost use Rattle.pri_reader.specs.First.{IsFirstRefusal, Refuses};
ghost use Rattle.pri_reader.specs.declared.tree.File.{File};
ghost use Rattle.pri_reader.specs.declared.tree.ReadRefusal.{ReadRefusal};
ghost use Rattle.pri_tokens.specs.Lexemes.{lexemes_of};
ghost use Rattle.std.specs.Prelude.{◌<◌, ◌^◌, IfErr, IfOk, length};

use crate::blocks::file;
use crate::tree::{File, ReadRefusal};
use pri_tokens::lexemes;
use std::alloc::Global;

/// Reads a file of fewer than 2^32 bytes: the tree of its tokens by the grammar, with numerals up to 2^127 − 1 and at most
/// 200 levels, or their first refusal: the first token with which no file goes on (Syntax), else that is a number above
/// 2^127 − 1 (Literal), else that opens the 201st level (Deep); or Syntax at the length of a file that ends too early.
#[tactic(auto)]
pub fn read(alloc: Global, bytes: &[u8]) -> Result<File, ReadRefusal>
    requires { length bytes.now < 2 ^ 32 }
    ensures found { IfOk result (λ file. IsFile (file_setting bytes.now) file (lexemes_of bytes.now)) }
    ensures only { (file : File) → IsFile (file_setting bytes.now) file (lexemes_of bytes.now) → GivesFile file result }
    ensures refused { IfErr result (Refuses (file_setting bytes.now) (length bytes.now) (lexemes_of bytes.now)) }
    ensures refuses { (e : ReadRefusal) → IsFirstRefusal (file_setting bytes.now) (length bytes.now) (lexemes_of bytes.now) e → AnswersRefusal e result }
{
    let tokens = lexemes(alloc, bytes)?;
    file(alloc, bytes, tokens.as_slice())
}
