//! The words of the command line.
ghost use Rattle.std.specs.Prelude.{◌≡◌, ◌≢◌, ◌⊎◌, IfErr, IsErrAnd};
ghost use Rattle.std.specs.IoError.{error_kind};
ghost use Rattle.registry_office.specs.declared.statuses.Status.TheVariants.{Usage, Memory};

use gb_base::NoMemory;
use registry_office::Status;
use std::alloc::Global;
use std::env::Args;
use std::io::ErrorKind;
use std::rc::RcStr;
use std::rt::Env;
use std::{env, io};

/// The words of the command line behind the program's name. Where one is not UTF-8 the words are
/// no command, and where no memory is found for them the status says so.
pub fn words<R: Env + AllocGlobal>(rt: &R) -> Result<Vec<RcStr>, Status>
    ensures refused { IfErr result (λ status. (status ≡ Usage) ⊎ (status ≡ Memory)) }
{
    words_among(rt.alloc(), env::args(rt))
}

/// The words among these arguments. They are no command only where the arguments are not text.
fn words_among(alloc: Global, arguments: io::Result<Args>) -> Result<Vec<RcStr>, Status>
    ensures refused { IfErr result (λ status. (status ≡ Usage) ⊎ (status ≡ Memory)) }
    ensures usage { IsErrAnd result (λ status. status ≡ Usage)
        → IsErrAnd arguments (λ error. error_kind error ≡ ErrorKind.InvalidData) }
    ensures memory { IsErrAnd result (λ status. status ≡ Memory)
        → IfErr arguments (λ error. error_kind error ≢ ErrorKind.InvalidData) }
{
    match arguments {
        Ok(arguments) => match words_behind_name(alloc, arguments) {
            Ok(words) => Ok(words),
            Err(_) => Err(Status::Memory),
        },
        Err(error) => Err(status_of(&error)),
    }
}

/// The arguments behind the first, which is the program's name.
fn words_behind_name(alloc: Global, arguments: Args) -> Result<Vec<RcStr>, NoMemory> {
    let mut words = Vec::new(alloc);
    for text in arguments.skip(1) {
        words.push(RcStr::from_string(text)?)?;
    }
    Ok(words)
}

fn status_of(error: &io::Error) -> Status
    ensures either { (result ≡ Usage) ⊎ (result ≡ Memory) }
    ensures usage { result ≡ Usage → error_kind error.now ≡ ErrorKind.InvalidData }
    ensures memory { result ≡ Memory → error_kind error.now ≢ ErrorKind.InvalidData }
{
    match error.kind() {
        ErrorKind::InvalidData => Status::Usage,
        _ => Status::Memory,
    }
}
