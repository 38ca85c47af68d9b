//! A disk as the office sees it: the calls that it has, and what each leaves.
/// The disk failed.
#[derive(Clone, Copy, Debug, PartialEq, Eq)]
pub struct DiskFailed;

/// A file on a disk. Between two successful syncs each written range, also of a write that
/// failed, and the part past the old end may hold any bytes after a stop; after a successful sync
/// a stop leaves what a read gives.
pub trait Disk {
    ghost use Rattle.std.specs.Prelude.{◌≡◌, ℕ, ◌+◌, ◌≤◌, List, length, Bool, IsTrue, is_err};
    ghost use Rattle.gb_outside.specs.Faults.{Counts};
    ghost use Rattle.gb_outside.specs.Images.{Torn, Follows, NoneNew, Elapses, LenIs, ReadsAt, WritesAt, Syncs};

    /// Whether disks of this type tell their content.
    ghost tells: { Bool };

    /// What a read gives.
    ghost reads: { Self → List ℕ };

    /// What a stop at this moment may leave.
    ghost images: { Self → List ℕ → Type 0 };

    /// The moment, as a number that never falls.
    ghost moment: { Self → ℕ };

    /// What a stop at some moment from that one on may have left, during a call or between two.
    ghost since: { Self → ℕ → List ℕ → Type 0 };

    /// How often the disk has failed.
    ghost faults: { Self → ℕ };

    /// The length in bytes.
    fn len(&mut self) -> Result<u64, DiskFailed>
        ensures len { IsTrue tells → LenIs (reads self.old) result }
        ensures same { IsTrue tells → reads self.new ≡ reads self.old }
        ensures stop { IsTrue tells → NoneNew (images self.old) (images self.new) }
        ensures time { IsTrue tells
            → Elapses (moment self.old) (moment self.new) (since self.old) (since self.new) (images self.new) }
        ensures cause { Counts (faults self.old) (faults self.new) (is_err result) };

    /// Fills `into` with the bytes from the offset `at` on.
    fn read_at(&mut self, at: u64, into: &mut [u8]) -> Result<(), DiskFailed>
        requires { IsTrue tells → at + length into.old ≤ length (reads self.old) }
        ensures bytes { IsTrue tells → ReadsAt (reads self.old) at result into.new }
        ensures same { IsTrue tells → reads self.new ≡ reads self.old }
        ensures stop { IsTrue tells → NoneNew (images self.old) (images self.new) }
        ensures time { IsTrue tells
            → Elapses (moment self.old) (moment self.new) (since self.old) (since self.new) (images self.new) }
        ensures cause { Counts (faults self.old) (faults self.new) (is_err result) };

    /// Writes over what is there from the offset `at` on, and past the end.
    fn write_at(&mut self, at: u64, bytes: &[u8]) -> Result<(), DiskFailed>
        requires { IsTrue tells → at ≤ length (reads self.old) }
        ensures written { IsTrue tells → WritesAt (reads self.old) (reads self.new) at result bytes.now }
        ensures stop { IsTrue tells → Follows (Torn at (length bytes.now)) (images self.old) (images self.new) }
        ensures time { IsTrue tells
            → Elapses (moment self.old) (moment self.new) (since self.old) (since self.new) (images self.new) }
        ensures cause { Counts (faults self.old) (faults self.new) (is_err result) };

    /// Brings what was written onto the disk.
    fn sync(&mut self) -> Result<(), DiskFailed>
        ensures durable { IsTrue tells → Syncs (reads self.new) result (images self.new) }
        ensures same { IsTrue tells → reads self.new ≡ reads self.old }
        ensures stop { IsTrue tells → NoneNew (images self.old) (images self.new) }
        ensures time { IsTrue tells
            → Elapses (moment self.old) (moment self.new) (since self.old) (since self.new) (images self.new) }
        ensures cause { Counts (faults self.old) (faults self.new) (is_err result) };

    /// What a read gives is one of the disk's images.
    ghost reads_is_image: { (disk : Self) → IsTrue tells → images disk (reads disk) };

    /// No image is longer than what a read gives. (None is shorter than the file at the last
    /// successful sync, since no step makes an image shorter.)
    ghost no_longer: { (disk : Self) (c : List ℕ) → IsTrue tells → images disk c → length c ≤ length (reads disk) };

    /// The images of now are among those since an earlier moment.
    ghost counts_now: { (disk : Self) (t : ℕ) (c : List ℕ) → IsTrue tells → t ≤ moment disk → images disk c → since disk t c };

    /// Since this moment there is no image but those of now.
    ghost only_now: { (disk : Self) (c : List ℕ) → IsTrue tells → since disk (moment disk) c → images disk c };
}
