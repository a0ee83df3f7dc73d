//! Where bytes come from and go to: files, sources and sinks.

ghost use Rattle.std.specs.Prelude.{◌≡◌, ℕ, ◌^◌, ◌<◌, ◌≤◌, List, [], ◌∷◌, Option, length, take, IfOk, OnErr};
ghost use Rattle.std.specs.Io.KnownBytes.{append_known, prepend_known, IsAtEnd};
ghost use Rattle.mm_word.specs.Adding.{Adds};
ghost use Rattle.mm_io.specs.Files.{Rose, NoneFell, ReadsAt, PieceRead, piece_read};

/// A read or a write that failed. It comes only if the count of faults rose in the call, or is at
/// the counter's last value.
#[derive(Clone, Copy, Debug, PartialEq, Eq)]
pub struct Failed;

/// Files by name.
///
/// Each name has a count of faults of its own. No count ever falls, and a read answers [`Failed`]
/// only if the count of its own name rose in this call, or is at the counter's last value.
///
/// Lists of reads belong to files: the reads that were made of them, in order. If a list belongs to
/// them before a read, that list with the read appended belongs to them after it, whatever the read
/// answers.
pub trait Files {
    /// The bytes of the file of a name, if they are known.
    ghost held: { Self → List ℕ → Option (List ℕ) };

    /// How often reads of a name have failed.
    ghost faults: { Self → List ℕ → ℕ };

    /// The list of reads belongs to the files: these reads were made, one after the other.
    ghost asked: { Self → List PieceRead → Type 0 };

    /// Writes bytes of the named file, from the offset in bytes on, to the front of `buf`, and
    /// answers their count. It answers 0 for a nonempty `buf` only if the offset is at the file's
    /// end or past it.
    fn read_at(&mut self, name: &str, offset: u64, buf: &mut [u8]) -> Result<usize, Failed>
        requires { offset < 2 ^ 32 }
        ensures bound { IfOk result (λ n. n ≤ length buf.new) }
        ensures bytes { IfOk result (λ n. ReadsAt (held self.old name.now) offset n buf.new) }
        ensures kept { held self.new ≡ held self.old }
        ensures cause { OnErr result (Rose (faults self.old name.now) (faults self.new name.now)) }
        ensures later { NoneFell (faults self.old) (faults self.new) }
        ensures asks { Adds asked self.old self.new (piece_read name.now offset (length buf.old) result ∷ []) };
}

/// A place where bytes go.
///
/// The sink's count of faults never falls, and a write answers [`Failed`] only if the count rose in this
/// call, or is at the counter's last value.
pub trait Sink {
    /// The bytes that the sink has taken, if they are known.
    ghost taken: { Self → Option (List ℕ) };

    /// How often a write has failed.
    ghost faults: { Self → ℕ };

    /// Takes a prefix of the piece, and answers its length in bytes: at least one if the piece is
    /// not empty. If the write fails, the sink takes nothing.
    fn write(&mut self, piece: &[u8]) -> Result<usize, Failed>
        ensures bound { IfOk result (λ n. n ≤ length piece.now) }
        ensures some { IfOk result (λ n. 0 < length piece.now → 0 < n) }
        ensures took { IfOk result (λ n. taken self.new ≡ append_known (taken self.old) (take n piece.now)) }
        ensures none { OnErr result (taken self.new ≡ taken self.old) }
        ensures cause { OnErr result (Rose (faults self.old) (faults self.new)) }
        ensures later { faults self.old ≤ faults self.new };
}

/// Bytes that come one after the other.
///
/// The source's count of faults never falls, and a read answers [`Failed`] only if the count rose in this
/// call, or is at the counter's last value.
pub trait Source {
    /// The bytes that are left, if they are known.
    ghost left: { Self → Option (List ℕ) };

    /// How often a read has failed.
    ghost faults: { Self → ℕ };

    /// Writes the next bytes to the front of `buf`, and answers their count. It answers 0 for a
    /// nonempty `buf` only at the end. If the read fails, nothing is lost.
    fn read(&mut self, buf: &mut [u8]) -> Result<usize, Failed>
        ensures bound { IfOk result (λ n. n ≤ length buf.new) }
        ensures bytes { IfOk result (λ n. left self.old ≡ prepend_known (take n buf.new) (left self.new)) }
        ensures end { IfOk result (λ n. n ≡ 0 → 0 < length buf.new → IsAtEnd (left self.new)) }
        ensures kept { OnErr result (left self.new ≡ left self.old) }
        ensures cause { OnErr result (Rose (faults self.old) (faults self.new)) }
        ensures later { faults self.old ≤ faults self.new };
}
