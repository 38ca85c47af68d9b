//! An input is read in blocks, or whole.
//! Why so: docs/DECISIONS.md, "A few steps of a session stand twice".
ghost use Rattle.std.specs.Prelude.{◌≡◌, ◌⊎◌, ◌≤◌, ◌+◌, false, length, IfOk, Err, vec_len};
ghost use Rattle.std.specs.Io.KnownBytes.{IsAtEnd};
ghost use Rattle.gb_outside.specs.Bytes.{IsGot, Reads, read_failed as read_of_source_failed};
ghost use Rattle.gb_outside.specs.Faults.{Counts};
ghost use Rattle.intake.specs.Faults.{session_input_failed, session_output_failed, session_disk_failed};
ghost use Rattle.intake.specs.Sessions.{Took};

use crate::faults::SessionFault;
use gb_base::NoMemory;
use gb_outside::{Got, Source};
use std::alloc::Global;

/// The most bytes of input that the office takes, 64 MiB.
pub const MAX_INPUT: usize = 1 << 26;

/// How many bytes are read at once.
pub const BLOCK: usize = 1 << 16;

/// How many bytes to ask for after so many were read: no more than are left of the most that the
/// office takes, and one where none are, so that a byte more is noticed.
pub fn room_for(count: usize) -> usize
    requires { count ≤ MAX_INPUT }
    ensures some { 1 ≤ result }
    ensures block { result ≤ BLOCK }
    ensures left { count + result ≤ MAX_INPUT ⊎ ((count ≡ MAX_INPUT) × (result ≡ 1)) }
{
    (MAX_INPUT - count).min(BLOCK).max(1)
}

/// A block to read into. It may run out of memory (NoMemory).
pub fn empty_block(alloc: Global) -> Result<Vec<u8>, NoMemory>
    ensures { IfOk result (λ block. vec_len block ≡ BLOCK) }
{
    vec![in alloc; 0; BLOCK]
}

/// Reads at most so many bytes to the front of the block.
pub fn read_block<S: Source>(source: &mut S, block: &mut [u8], room: usize) -> Got
    requires some { 1 ≤ room }
    requires within { room ≤ length block.old }
    ensures count { IsGot result room }
    ensures content { Reads (S.left source.old) (S.left source.new) result block.new }
    ensures cause { Counts (S.faults source.old) (S.faults source.new) (read_of_source_failed result) }
{
    source.read(&mut block[..room])
}

/// Reads the whole input, for which it may run out of memory (Memory).
pub fn read_whole<S: Source>(alloc: Global, source: &mut S) -> Result<Vec<u8>, SessionFault>
    ensures whole { IfOk result (λ input. Took (S.left source.old) (S.left source.new) (λ read. IsAtEnd (S.left source.new) × (length read ≤ MAX_INPUT) × (input.items ≡ read))) }
    ensures short { (result ≡ Err SessionFault.TooLong → ⊥) → Took (S.left source.old) (S.left source.new) (λ read. length read ≤ MAX_INPUT) }
    ensures long { result ≡ Err SessionFault.TooLong → Took (S.left source.old) (S.left source.new) (λ read. length read ≡ MAX_INPUT + 1) }
    ensures taken { Took (S.left source.old) (S.left source.new) (λ read. length read ≤ MAX_INPUT + 1) }
    ensures no_output { session_output_failed result ≡ false }
    ensures no_disk { session_disk_failed result ≡ false }
    ensures cause { Counts (S.faults source.old) (S.faults source.new) (session_input_failed result) }
{
    let mut input = Vec::new(alloc);
    let mut block = empty_block(alloc)?;
    let mut count = 0;
    for _ in 0..MAX_INPUT + 1 {
        match read_block(source, block.as_mut_slice(), room_for(count)) {
            Got::Bytes(read) => {
                if read > MAX_INPUT - count {
                    return Err(SessionFault::TooLong);
                }
                input.extend_from_slice(&block[..read])?;
                count += read;
            }
            Got::End => return Ok(input),
            Got::Failed => return Err(SessionFault::Read),
        }
    }
    unreachable!()
}
