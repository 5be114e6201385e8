ghost use Rattle.std.specs.Prelude.{◌≡◌, IfOk};
ghost use Rattle.zns_program.specs.Words.{after_name, AreWordsOf};

use crate::word::Word;
use std::alloc::Global;
use std::env::{Args, Env};
use std::{env, io};
use zns_io::NoMemory;

// The words of the arguments after the program's name.
fn words_after_name(alloc: Global, args: Args) -> Result<Vec<Word>, NoMemory>
    ensures { IfOk result (λ words. words.items ≡ after_name args) }
{
    let mut args = args;
    let _name = args.next();
    let mut words = Vec::new(alloc);
    for arg in args {
        let word = Word::of(alloc, arg.as_str())?;
        words.push(word)?;
    }
    Ok(words)
}

// The words of the environment's arguments. If any argument isn't text, there are no words, which
// means nothing. Out of memory says nothing about the words, so it stays an error.
fn words_of(alloc: Global, told: io::Result<Args>) -> Result<Vec<Word>, NoMemory>
    ensures { AreWordsOf told result }
{
    match told {
        Ok(args) => words_after_name(alloc, args),
        Err(error) if error.kind() == io::ErrorKind::OutOfMemory => Err(NoMemory),
        Err(_) => Ok(Vec::new(alloc)),
    }
}

/// The words after the program's name. No clause can say what an environment gives.
///
/// # Errors
///
/// Memory runs out.
pub fn words(rt: &(impl Env + AllocGlobal)) -> Result<Vec<Word>, NoMemory> {
    words_of(rt.alloc(), env::args(rt))
}
