//! Lists of lines, each of which follows from the image and from earlier lines.

ghost use Rattle.std.specs.Prelude.{◌≡◌, ◌↔◌, [], ◌∷◌, ◌++◌, ◌<◌, IsTrue, IfOk, OnOk, MatchOption, length};
ghost use Rattle.mm_why.specs.Derivations.{line_at, Says};
ghost use Rattle.mm_why.specs.Traces.{IsFresh, Adds};

use crate::line::Line;
use mm_word::{GuardedPtr, NoMemory};

/// Whether a line grants the pointer to the group.
fn grants(line: Line, group: u8, pointer: GuardedPtr) -> bool
    ensures { IsTrue result ↔ ((line.group ≡ group) × (line.pointer ≡ pointer)) }
{
    line.group == group && line.pointer == pointer
}

/// The index of the line that grants a pointer to a group, if there is one.
pub fn find(lines: &[Line], group: u8, pointer: GuardedPtr) -> Option<usize>
    ensures { MatchOption
        result
        (IsFresh lines.now group pointer)
        (λ k. Says lines.now (length lines.now) k group pointer) }
{
    for k in 0..lines.len() {
        let line = lines[k];
        if grants(line, group, pointer) {
            return Some(k);
        }
    }
    None
}

/// The pointer of a line.
pub fn pointer_of(lines: &[Line], k: usize) -> GuardedPtr
    requires { k < length lines.now }
    ensures { result ≡ (line_at lines.now k).pointer }
{
    lines[k].pointer
}

/// Adds a line, and gives its index.
pub fn push(lines: &mut Vec<Line>, line: Line) -> Result<usize, NoMemory>
    ensures items { OnOk result (lines.new.items ≡ lines.old.items ++ line ∷ []) }
    ensures place { IfOk result (λ place. place ≡ length lines.old.items) }
{
    let place = lines.len();
    lines.push(line)?;
    Ok(place)
}

/// Adds a line that grants a group a pointer that no line has granted it yet, and gives its index.
pub fn add(lines: &mut Vec<Line>, line: Line) -> Result<usize, NoMemory>
    requires { IsFresh lines.old.items line.group line.pointer }
    ensures { IfOk result (λ place. Adds lines.old.items line lines.new.items place) }
{
    let place = push(lines, line)?;
    Ok(place)
}
