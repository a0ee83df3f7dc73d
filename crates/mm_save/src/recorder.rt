//! Sessions that can go back.

ghost use Rattle.std.specs.Prelude.{◌≡◌, if◌then◌else◌, codes, None};
ghost use Rattle.std.specs.Str.{bytes_eq};
ghost use Rattle.mm_debug.specs.Shown.{session_of};
ghost use Rattle.mm_save.specs.Recorder.{back_of, back_text, count_of};
ghost use Rattle.mm_text.specs.Appends.{Appends};
ghost use Rattle.mm_save.specs.Recorded.{Remembers};
ghost use Rattle.std.proofs.Props.{props};

use circular_buffer::HeapCircularBuffer;
use mm_debug::{Go, LineHandler, Point, Session, handle_lines, number, take_token};
use mm_io::{Sink, WriteFault};
use mm_mem::{Memory, Reset};
use mm_model::CYCLE_LIMIT;
use mm_text::{Piece, TextBuffer};
use mm_word::NoMemory;
use std::alloc::Global;

/// The most states that the ring holds.
const RING_SIZE: usize = 8;

/// The least difference between the total and that of the newest state in the ring with which a line is due.
const FAR: u64 = 1_000;

/// A session that can go back. It keeps the state at its start, and up to 8 later states in a ring.
///
/// A line is due if the total before it differs by 1,000 or more from that of the newest state in the ring, or from 0
/// if the ring is empty. The state before a due line is put into the ring, and the oldest state falls out of a full
/// one. The contract also lets the ring stay as it was, which is meant for want of memory; no line fails for want of
/// memory.
#[derive(Drop)]
pub struct Recorder<M: Memory> {
    alloc: Global,
    session: Session<M>,
    start: Point,
    ring: HeapCircularBuffer<Point>,
    ghost within: { Remembers (session_of session) start ring.items } by { Prim.hlevel props },
    ghost size: { ring.capacity ≡ 8 },
}

impl<M: Reset> Recorder<M> {
    ghost use Rattle.std.specs.Prelude.{◌≡◌, ℕ, ◌-◌, ◌≤◌, min, [], IfOk, IfSome, IsSomeAnd, slice_get};
    ghost use Rattle.mm_io.specs.Sinks.{Writes};
    ghost use Rattle.mm_text.specs.Appends.{Appends};
    ghost use Rattle.mm_model.specs.Image.{Image};
    ghost use Rattle.mm_debug.specs.Commands.{lines_of};
    ghost use Rattle.mm_debug.specs.Session.{total_of};
    ghost use Rattle.mm_debug.specs.Shown.{session_of};
    ghost use Rattle.mm_debug.specs.Standing.{StandsFor, total_at};
    ghost use Rattle.mm_save.specs.Recorder.{Recalls, recalled, recorded, bare, IsKept, AreKept, totals_before};
    ghost use Rattle.mm_save.specs.Recorder.{gone_back};
    ghost use Rattle.mm_save.specs.Shown.{recording_of};

    /// A recorder of a session that has issued nothing. The ring is empty. `NoMemory` comes if memory ran out.
    pub fn new(alloc: Global, session: Session<M>) -> Result<Recorder<M>, NoMemory>
        requires { total_of (session_of session) ≡ 0 }
        ensures session { IfOk result (λ r. (recording_of r).session ≡ session_of session) }
        ensures first { IfOk result (λ r. (recording_of r).first ≡ bare (session_of session)) }
        ensures empty { IfOk result (λ r. (recording_of r).kept ≡ []) }

        // The recorder stands for every image for which the session does.
        ensures stands { (i : Image) → StandsFor i (session_of session)
            → IfOk result (λ r. Recalls i (recording_of r)) }
    {
        let start = session.point(alloc)?;
        let ring = HeapCircularBuffer::with_capacity(alloc, RING_SIZE)?;
        Ok(Recorder {
            alloc,
            session,
            start,
            ring,
        })
    }

    /// The session as it is now.
    pub fn session(&self) -> &Session<M>
        ensures { session_of result.now ≡ (recording_of self.now).session }
    {
        &self.session
    }

    /// The total of a state in the ring, counted from 0 at the oldest.
    pub fn kept(&self, i: usize) -> Option<u64>
        ensures { result ≡ slice_get (recording_of self.now).kept i }
    {
        match self.ring.get(i) {
            Some(point) => Some(point.total()),
            None => None,
        }
    }

    /// Carries out a line, which is given without its newline, and writes its reply. The line `back N`, N 1 to
    /// 1,000,000, goes back K cycles, the lesser of N and the total, and replies `back K total C`, C the new total.
    /// Breaks and watches stay. Each other line is the session's. After a [`WriteFault`] the sink has taken a prefix of
    /// the reply; the recorder goes on as after any line.
    pub fn line<O: Sink>(&mut self, text: &[u8], out: &mut O) -> Result<Go, WriteFault>
        ensures session { let r = recording_of self.old in
            (recording_of self.new).session ≡ (recalled r.first r.session text.now).session }
        ensures first { (recording_of self.new).first ≡ (recording_of self.old).first }
        ensures kept { let r = recording_of self.old in
            IsKept r.kept (total_of r.session) (recording_of self.new).kept }
        ensures reply { let r = recording_of self.old in
            Writes O.taken O.faults out.old out.new (recalled r.first r.session text.now).reply result }
        ensures go { let r = recording_of self.old in
            IfOk result (λ go. go ≡ (recalled r.first r.session text.now).go) }

        // A line `back N` lowers the total by the lesser of N and the total.
        ensures total { let was = total_of (recording_of self.old).session in (n : ℕ) → back_of text.now ≡ Some n
            → total_of (recording_of self.new).session ≡ was - min n was }

        // The recorder stands for every image for which it stood.
        ensures stands { (i : Image) → Recalls i (recording_of self.old) → Recalls i (recording_of self.new) }
    {
        let mut reply = TextBuffer::new();
        let go = self.put_line(&mut reply, out, text);
        reply.finish(out)?;
        Ok(go)
    }

    /// Carries out the lines of an input up to its end or a `quit`, and writes their replies. Also if a [`WriteFault`]
    /// comes, all lines are carried out, and the sink has taken a prefix of the replies.
    pub fn lines<O: Sink>(&mut self, input: &[u8], out: &mut O) -> Result<(), WriteFault>
        ensures session { let r = recording_of self.old in
            (recording_of self.new).session ≡ (recorded r.first r.session input.now).session }
        ensures first { (recording_of self.new).first ≡ (recording_of self.old).first }
        ensures kept { let r = recording_of self.old in
            AreKept r.kept (totals_before r.first r.session (lines_of input.now)) (recording_of self.new).kept }
        ensures replies { let r = recording_of self.old in
            Writes O.taken O.faults out.old out.new (recorded r.first r.session input.now).text result }
        ensures stands { (i : Image) → Recalls i (recording_of self.old) → Recalls i (recording_of self.new) }
    {
        let mut replies = TextBuffer::new();
        handle_lines(self, &mut replies, out, input);
        replies.finish(out)
    }

    /// Carries out a line, and appends its reply.
    fn put_line<O: Sink>(&mut self, reply: &mut TextBuffer, out: &mut O, line: &[u8]) -> Go
        ensures session { let r = recording_of self.old in
            (recording_of self.new).session ≡ (recalled r.first r.session line.now).session }
        ensures first { (recording_of self.new).first ≡ (recording_of self.old).first }
        ensures kept { let r = recording_of self.old in
            IsKept r.kept (total_of r.session) (recording_of self.new).kept }
        ensures reply { let r = recording_of self.old in
            Appends O.taken O.faults out.old out.new reply.old reply.new (recalled r.first r.session line.now).reply }
        ensures go { let r = recording_of self.old in result ≡ (recalled r.first r.session line.now).go }
        ensures total { let was = total_of (recording_of self.old).session in (n : ℕ) → back_of line.now ≡ Some n
            → total_of (recording_of self.new).session ≡ was - min n was }
        ensures stands { (i : Image) → Recalls i (recording_of self.old) → Recalls i (recording_of self.new) }
    {
        self.keep();
        match back_of(line) {
            None => self.session.put_line(reply, out, line),
            Some(asked) => {
                let count = asked.min(self.session.total());
                self.go_back(count);
                put_back(reply, out, count, self.session.total());
                Go::More
            }
        }
    }

    /// If a line is due, keeps the state of the session, or leaves the ring as it was.
    fn keep(&mut self)
        ensures session { (recording_of self.new).session ≡ (recording_of self.old).session }
        ensures first { (recording_of self.new).first ≡ (recording_of self.old).first }
        ensures kept { let r = recording_of self.old in
            IsKept r.kept (total_of r.session) (recording_of self.new).kept }
    {
        let newest = match self.ring.back() {
            Some(point) => point.total(),
            None => 0,
        };
        if newest.abs_diff(self.session.total()) >= FAR {
            if let Ok(point) = self.session.point(self.alloc) {
                self.ring.push_back(point);
            }
        }
    }

    /// Goes back `count` cycles: to the latest kept state that is not later, and forward from there.
    fn go_back(&mut self, count: u64)
        requires { count ≤ total_of (recording_of self.old).session }
        ensures session { let r = recording_of self.old in
            (recording_of self.new).session ≡ gone_back r.first r.session count }
        ensures total { total_of (recording_of self.new).session ≡ total_of (recording_of self.old).session - count }
        ensures first { (recording_of self.new).first ≡ (recording_of self.old).first }
        ensures kept { (recording_of self.new).kept ≡ (recording_of self.old).kept }
        ensures stands { (i : Image) → Recalls i (recording_of self.old) → Recalls i (recording_of self.new) }
    {
        let total = self.session.total() - count;
        match self.latest(total) {
            Some(at) => {
                if let Some(point) = self.ring.get(at) {
                    self.session.go(point);
                    self.session.step(total - point.total());
                }
            }
            None => {
                self.session.go(&self.start);
                self.session.step(total - self.start.total());
            }
        }
    }

    /// The index in the ring of the latest state whose total is at most `total`.
    fn latest(&self, total: u64) -> Option<usize>
        ensures { IfSome result (λ at. IsSomeAnd (slice_get self.now.ring.items at) (λ p. total_at p ≤ total)) }
    {
        let mut latest = None;
        let mut issued = 0;
        for at in 0..self.ring.len() {
            if let Some(point) = self.ring.get(at) {
                if issued <= point.total() && point.total() <= total {
                    latest = Some(at);
                    issued = point.total();
                }
            }
        }
        latest
    }
}

impl<M: Reset> LineHandler for Recorder<M> {
    ghost use Rattle.mm_save.specs.Recorder.{Handled};
    ghost use Rattle.mm_save.specs.Shown.{recording_of};

    ghost Answers = { λ old line reply new go. Handled (recording_of old) line reply (recording_of new) go };

    fn handle_line<O: Sink>(&mut self, reply: &mut TextBuffer, out: &mut O, line: &[u8]) -> Go {
        self.put_line(reply, out, line)
    }
}

/// The count of cycles that a line `back N` asks to go back; `None` for any other line.
fn back_of(line: &[u8]) -> Option<u64>
    ensures { result ≡ back_of line.now }
{
    let (word, rest) = take_token(line);
    let (count, rest) = take_token(rest);
    let (behind, _) = take_token(rest);
    if word.is_empty() || count.is_empty() || !behind.is_empty() {
        return None;
    }
    count_of(word, number(count))
}

/// The count of cycles that a word and a number ask to go back.
fn count_of(word: &[u8], number: Option<u64>) -> Option<u64>
    ensures { result ≡ (if bytes_eq word.now (codes "back") then count_of number else None) }
{
    match (word, number) {
        (b"back", Some(n)) if 1 <= n && n <= CYCLE_LIMIT => Some(n),
        _ => None,
    }
}

/// Appends the reply of a line that went back.
fn put_back<O: Sink>(reply: &mut TextBuffer, out: &mut O, count: u64, total: u64)
    ensures { Appends O.taken O.faults out.old out.new reply.old reply.new (back_text count total) }
{
    reply.put(
        out,
        &[
            Piece::Text("back "),
            Piece::Decimal(count),
            Piece::Text(" total "),
            Piece::Decimal(total),
            Piece::Text("\n"),
        ],
    );
}
