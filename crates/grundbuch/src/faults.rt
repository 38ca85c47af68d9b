//! How the adapters count the faults of what stands outside.
//! Why so: docs/DECISIONS.md, "The standard streams repeat some lines of each other".
ghost use Rattle.std.specs.Prelude.{◌≡◌, is_err};
ghost use Rattle.gb_outside.specs.Faults.{Counts, faults_after};

use std::io;

/// Hands on what the system answered, and counts an error as one fault. The count stays at its
/// type's end.
pub fn counted<T: Drop>(faults: &mut u64, answer: io::Result<T>) -> io::Result<T>
    ensures answer { result ≡ answer }
    ensures cause { Counts faults.old faults.new (is_err answer) }
    ensures once { faults.new ≡ faults_after faults.old (is_err answer) }
{
    if answer.is_err() {
        *faults = faults.saturating_add(1);
    }
    answer
}
