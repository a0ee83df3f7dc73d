//! The runs of bytes between blanks and comments.

ghost use Rattle.std.specs.Prelude.{◌≡◌, ◌<◌, ◌≤◌, ◌∷◌, length, slice_range, slice_index_or, true};
ghost use Rattle.mm_model.specs.Words.{is_blank as blank};
ghost use Rattle.mm_sched.specs.Places.{runs_at, runs_in, is_word_byte};

/// Whether a byte is a blank: a tab, a newline, a carriage return or a space.
fn is_blank(b: u8) -> bool
    ensures { result ≡ blank b }
{
    b == b'\t' || b == b'\n' || b == b'\r' || b == b' '
}

/// Whether a byte is in a run: neither a blank nor the start of a comment. Most are greater than any of these.
#[inline(always)]
fn is_in_run(b: u8) -> bool
    ensures { result ≡ is_word_byte b }
{
    b > b'#' || b != b'#' && !is_blank(b)
}

/// The start of the first run of bytes that are neither blank nor in a comment, from a place on that is in no comment;
/// or the end of the text.
#[inline(always)]
pub fn run_start(bytes: &[u8], from: usize) -> usize
    requires { from ≤ length bytes.now }
    ensures from { from ≤ result }
    ensures end { result ≤ length bytes.now }
    ensures same { runs_at bytes.now result ≡ runs_at bytes.now from }
    ensures begins { result < length bytes.now → is_word_byte (slice_index_or bytes.now result 0) ≡ true }
{
    let mut at = from;
    while at < bytes.len() {
        let b = bytes[at];
        if is_in_run(b) {
            return at;
        }
        if b == b'#' {
            at = line_end(bytes, at + 1);
        } else {
            at += 1;
        }
    }
    at
}

/// The end of the line of a comment that goes on at a place: its newline, or the end of the text.
fn line_end(bytes: &[u8], from: usize) -> usize
    requires { from ≤ length bytes.now }
    ensures from { from ≤ result }
    ensures end { result ≤ length bytes.now }
    ensures same { runs_at bytes.now result ≡ runs_in true bytes.now from }
{
    for at in from..bytes.len() {
        if bytes[at] == b'\n' {
            return at;
        }
    }
    bytes.len()
}

/// The end of the run that begins at a place.
#[inline(always)]
pub fn run_end(bytes: &[u8], from: usize) -> usize
    requires inside { from < length bytes.now }
    requires begins { is_word_byte (slice_index_or bytes.now from 0) ≡ true }
    ensures from { from < result }
    ensures end { result ≤ length bytes.now }
    ensures run { runs_at bytes.now from ≡ (from, slice_range bytes.now from result) ∷ runs_at bytes.now result }
{
    for at in from + 1..bytes.len() {
        if !is_in_run(bytes[at]) {
            return at;
        }
    }
    bytes.len()
}
