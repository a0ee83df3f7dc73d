//! Lines of an input that are carried out one after the other.

ghost use Rattle.mm_debug.specs.Commands.{lines_of};
ghost use Rattle.mm_debug.specs.Dialogues.{AppendsSome, Carried};

use crate::command::first_line;
use crate::session::Go;
use mm_io::Sink;
use mm_text::TextBuffer;

/// A handler of lines, which carries them out and replies to each.
pub trait LineHandler {
    ghost use Rattle.std.specs.Prelude.{List, ℕ};
    ghost use Rattle.mm_debug.specs.Dialogues.{AppendsSome};
    ghost use Rattle.mm_debug.specs.declared.session.Go.{Go};

    /// The relation between the handler before a line, the line, the reply, the handler after it, and whether another
    /// line may follow.
    ghost Answers: { Self → List ℕ → List ℕ → Self → Go → Type 0 };

    /// Carries out a line, and appends its reply.
    fn handle_line<O: Sink>(&mut self, reply: &mut TextBuffer, out: &mut O, line: &[u8]) -> Go
        ensures { AppendsSome O.taken O.faults out.old out.new reply.old reply.new
            (λ text. Answers self.old line.now text self.new result) };
}

/// Carries out the lines of an input up to its end or a `quit`, and appends their replies.
pub fn handle_lines<H: LineHandler, O: Sink>(
    handler: &mut H,
    replies: &mut TextBuffer,
    out: &mut O,
    input: &[u8],
)
    ensures { AppendsSome O.taken O.faults out.old out.new replies.old replies.new
        (λ text. Carried H.Answers handler.old (lines_of input.now) text handler.new) }
{
    let mut rest = input;
    while !rest.is_empty() {
        let (line, others) = first_line(rest);
        if handler.handle_line(replies, out, line) == Go::Quit {
            break;
        }
        rest = others;
    }
}
