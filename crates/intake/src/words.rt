//! The words of replies, as lines with their LF.
ghost use Rattle.std.specs.Prelude.{◌≡◌, ◌++◌, codes, false, IfOk};
ghost use Rattle.intake.specs.Requests.{is_fault, received_text};

use gb_base::NoMemory;
use receipt_journal::Received;
use std::alloc::Global;

/// The line of an answer that is no fault. May run out of memory (`NoMemory`).
pub fn received_line(alloc: Global, answer: Received) -> Result<Vec<u8>, NoMemory>
    requires { is_fault answer ≡ false }
    ensures { IfOk result (λ line. line.items ≡ received_text answer ++ codes "\n") }
{
    match answer {
        Received::Accepted(n) => Ok(format!(in alloc; "accepted {n}\n")?.into_bytes()),
        Received::Repeated(n) => Ok(format!(in alloc; "repeated {n}\n")?.into_bytes()),
        Received::Differs(n) => Ok(format!(in alloc; "differs {n}\n")?.into_bytes()),
        Received::Full => Vec::from_slice(alloc, b"full\n"),
        Received::Disk => unreachable!(),
        Received::MustReopen => unreachable!(),
        Received::Memory => unreachable!(),
    }
}

/// The line that names the first wrong path of what is no item. May run out of memory (`NoMemory`).
pub fn malformed_line(alloc: Global, path: &[u8]) -> Result<Vec<u8>, NoMemory>
    ensures { IfOk result (λ line. line.items ≡ codes "malformed " ++ path.now ++ codes "\n") }
{
    let mut line = Vec::from_slice(alloc, b"malformed ")?;
    line.extend_from_slice(path)?;
    line.push(b'\n')?;
    Ok(line)
}
