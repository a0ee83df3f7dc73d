//! The spans that hold an address, and the groups that use them.

ghost use Rattle.std.specs.Prelude.{◌+◌, ◌<◌, IfOk, length};
ghost use Rattle.mm_audit.specs.Spans.{AreInOrder, base_at};
ghost use Rattle.mm_audit.specs.Opening.{Closed, IsLast, AreOpen, IsOpenAt};

use crate::span::Span;
use mm_word::NoMemory;

/// A span that is open at an address: its end, and the groups that use it or a span around it.
#[derive(Clone, Copy)]
pub struct Open {
    pub end: u64,
    pub touch: u64,
    pub write: u64,
}

/// Removes from the top of the stack the spans that end at or before an address.
fn close(stack: &mut Vec<Open>, base: u64)
    ensures { Closed base stack.old.items stack.new.items }
{
    while !stack.is_empty() && stack[stack.len() - 1].end <= base {
        stack.truncate(stack.len() - 1);
    }
}

/// The innermost open span; a span that nobody uses if none is open.
fn innermost(stack: &[Open]) -> Open
    ensures { IsLast stack.now result }
{
    match stack.last() {
        Some(last) => *last,
        None => Open {
            end: 0,
            touch: 0,
            write: 0,
        },
    }
}

/// Opens the span at an index, and gives the groups that use its first address.
pub fn enter(stack: &mut Vec<Open>, spans: &[Span], k: usize) -> Result<Open, NoMemory>
    requires order { AreInOrder spans.now }
    requires place { k < length spans.now }
    requires open { AreOpen spans.now k (base_at spans.now k) stack.old.items }
    ensures open { IfOk result (λ now. AreOpen spans.now (k + 1) (base_at spans.now k) stack.new.items) }
    ensures users { IfOk result (λ now. IsOpenAt spans.now k now) }
{
    let span = spans[k];
    close(stack, span.base);
    let over = innermost(stack);
    let now = Open {
        end: span.end(),
        touch: span.touch | over.touch,
        write: span.write | over.write,
    };
    stack.push(now)?;
    Ok(now)
}
