//! For each two groups the least word that the one writes and the other touches.

ghost use Rattle.std.specs.Prelude.{IfOk, length};
ghost use Rattle.mm_audit.specs.Spans.{AreInOrder};
ghost use Rattle.mm_audit.specs.Meeting.{AreRows, NotesAll, AreNoRows, HaveMet};

use crate::open_spans::{Open, enter};
use crate::shared_words::Meets;
use crate::span::Span;
use mm_word::NoMemory;
use std::alloc::Global;

/// A row for each group, in which it meets no other group.
fn no_rows(alloc: Global) -> Result<Vec<Meets>, NoMemory>
    ensures { IfOk result (λ table. AreNoRows 64 table.items) }
{
    let mut table = Vec::new(alloc);
    for _ in 0..64usize {
        table.push(Meets::none())?;
    }
    Ok(table)
}

/// Notes a word for the groups that write it and those that touch it.
fn note_all(table: &mut [Meets], now: Open, word: u64)
    requires { AreRows table.old }
    ensures { NotesAll now.write now.touch word 64 table.old table.new }
{
    for h in 0..64usize {
        if (now.write >> h) & 1 == 1 {
            table[h].note(now.touch, word);
        }
    }
}

/// A row for each group that writes: the groups that touch a word that it writes, and the least such word of each.
pub fn least_words(alloc: Global, spans: &[Span]) -> Result<Vec<Meets>, NoMemory>
    requires { AreInOrder spans.now }
    ensures { IfOk result (λ table. HaveMet spans.now (length spans.now) table.items) }
{
    let mut table = no_rows(alloc)?;
    let mut stack = Vec::new(alloc);
    let mut last = Open {
        end: 0,
        touch: 0,
        write: 0,
    };
    for k in 0..spans.len() {
        let now = enter(&mut stack, spans, k)?;
        if now.touch != last.touch || now.write != last.write {
            note_all(&mut table, now, spans[k].base);
        }
        last = now;
    }
    Ok(table)
}
