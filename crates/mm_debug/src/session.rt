//! Sessions that carry out lines.

ghost use Rattle.std.specs.Prelude.{◌≤◌};
ghost use Rattle.mm_model.specs.Limits.{cycle_limit};
ghost use Rattle.mm_machine.specs.Machine.{state_of};

use crate::breakpoints::{Breaks, Watches};
use crate::command::{Command, first_line, read_command};
use crate::lines::{LineHandler, handle_lines};
use crate::replies::{put_break, put_slot_at, put_stepped, put_stop, put_watch, put_words};
use mm_io::{Sink, WriteFault};
use mm_machine::Machine;
use mm_mem::{Inspect, Memory};
use mm_sched::{Order, Robin};
use mm_text::{Piece, TextBuffer};

/// Whether another line may follow.
#[derive(Clone, Copy, PartialEq, Eq)]
pub enum Go {
    /// Another line may follow.
    More,
    /// The line was `quit`. The session does not remember it.
    Quit,
}

/// A machine, the order of its cycles, and breaks and watches.
///
/// A session has issued at most 1,000,000 cycles, and its machine has done as many.
#[derive(Drop)]
pub struct Session<M: Memory> {
    pub(crate) machine: Machine<M>,
    pub(crate) order: Order,
    pub(crate) robin: Robin,
    pub(crate) breaks: Breaks,
    pub(crate) watches: Watches,
    ghost within: { (state_of machine).cycles ≤ cycle_limit },
}

impl<M: Inspect> Session<M> {
    ghost use Rattle.std.specs.Prelude.{◌≡◌, ◌≤◌, IfOk};
    ghost use Rattle.mm_io.specs.Sinks.{Writes};
    ghost use Rattle.mm_text.specs.Appends.{Appends};
    ghost use Rattle.mm_model.specs.Image.{Image, start};
    ghost use Rattle.mm_model.specs.Limits.{cycle_limit};
    ghost use Rattle.mm_machine.specs.Machine.{state_of};
    ghost use Rattle.mm_debug.specs.Session.{begun, total_of, answer, answer_to, debugged};
    ghost use Rattle.mm_debug.specs.Shown.{session_of};
    ghost use Rattle.mm_debug.specs.Standing.{Point, StandsFor, CanGo};

    /// A session of a machine that has done no cycle. It has no breaks and no watches.
    pub fn new(machine: Machine<M>, order: Order) -> Session<M>
        requires { (state_of machine).cycles ≡ 0 }
        ensures session { session_of result ≡ begun order (state_of machine) }

        // A session of a machine at the start of an image stands for that image.
        ensures stands { (i : Image) → state_of machine ≡ start i → StandsFor i (session_of result) }
    {
        Session {
            machine,
            order,
            robin: Robin::new(),
            breaks: Breaks::new(),
            watches: Watches::new(),
        }
    }

    /// The count of cycles that the session has issued.
    pub fn total(&self) -> u64
        ensures total { result ≡ total_of (session_of self.now) }
        ensures most { result ≤ cycle_limit }
    {
        self.machine.cycles()
    }

    /// Carries out a line, which is given without its newline, and writes its reply. After a [`WriteFault`] the sink
    /// has taken a prefix of the reply; the session goes on as after any line.
    pub fn line<O: Sink>(&mut self, text: &[u8], out: &mut O) -> Result<Go, WriteFault>
        ensures session { session_of self.new ≡ (answer_to (session_of self.old) text.now).session }
        ensures reply { Writes O.taken O.faults out.old out.new
            (answer_to (session_of self.old) text.now).reply result }
        ensures go { IfOk result (λ go. go ≡ (answer_to (session_of self.old) text.now).go) }

        // The session stands for every image for which it stood, and can go where it could.
        ensures stands { (i : Image) → StandsFor i (session_of self.old) → StandsFor i (session_of self.new) }
        ensures fits { (p : Point) → CanGo (session_of self.old) p → CanGo (session_of self.new) p }
    {
        let mut reply = TextBuffer::new();
        let go = self.put_line(&mut reply, out, text);
        reply.finish(out)?;
        Ok(go)
    }

    /// Carries out the lines of an input up to its end or a `quit`, and writes their replies. Also if a [`WriteFault`]
    /// comes, all lines are carried out, and the sink has taken a prefix of the replies.
    pub fn lines<O: Sink>(&mut self, input: &[u8], out: &mut O) -> Result<(), WriteFault>
        ensures session { session_of self.new ≡ (debugged (session_of self.old) input.now).session }
        ensures replies { Writes O.taken O.faults out.old out.new
            (debugged (session_of self.old) input.now).text result }
        ensures stands { (i : Image) → StandsFor i (session_of self.old) → StandsFor i (session_of self.new) }
        ensures fits { (p : Point) → CanGo (session_of self.old) p → CanGo (session_of self.new) p }
    {
        let mut replies = TextBuffer::new();
        handle_lines(self, &mut replies, out, input);
        replies.finish(out)
    }

    /// Carries out a line, and appends its reply.
    #[tactic(auto, unfolding(crate::specs::Session::answer))]
    pub fn put_line<O: Sink>(&mut self, reply: &mut TextBuffer, out: &mut O, line: &[u8]) -> Go
        ensures session { session_of self.new ≡ (answer_to (session_of self.old) line.now).session }
        ensures reply { Appends O.taken O.faults out.old out.new reply.old reply.new
            (answer_to (session_of self.old) line.now).reply }
        ensures go { result ≡ (answer_to (session_of self.old) line.now).go }
        ensures stands { (i : Image) → StandsFor i (session_of self.old) → StandsFor i (session_of self.new) }
        ensures fits { (p : Point) → CanGo (session_of self.old) p → CanGo (session_of self.new) p }
    {
        match read_command(line) {
            Command::Nothing => {}
            Command::Step(count) => {
                let before = self.total();
                self.step(count);
                put_stepped(reply, out, self.total() - before, self.total());
            }
            Command::Run => {
                let stop = self.run();
                put_stop(reply, out, stop, self.total());
            }
            Command::Break(slot, address) => put_break(
                reply,
                out,
                self.breaks.insert(slot, address),
            ),
            Command::Watch(word) => put_watch(reply, out, self.watches.insert(word)),
            Command::Regs(slot) => put_slot_at(reply, out, &self.machine, slot),
            Command::Mem(word, count) => put_words(reply, out, self.machine.memory(), word, count),
            Command::Quit => {
                reply.put_piece(out, &Piece::Text("bye\n"));
                return Go::Quit;
            }
            Command::Bad => reply.put_piece(out, &Piece::Text("bad command\n")),
        }
        Go::More
    }
}

impl<M: Inspect> LineHandler for Session<M> {
    ghost use Rattle.mm_debug.specs.Dialogues.{IsAnswer};
    ghost use Rattle.mm_debug.specs.Session.{answer_to};
    ghost use Rattle.mm_debug.specs.Shown.{session_of};

    ghost Answers = { λ old line reply new go. IsAnswer (answer_to (session_of old) line) reply (session_of new) go };

    fn handle_line<O: Sink>(&mut self, reply: &mut TextBuffer, out: &mut O, line: &[u8]) -> Go {
        self.put_line(reply, out, line)
    }
}
