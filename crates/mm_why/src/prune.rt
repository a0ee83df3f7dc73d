//! Only the lines that the last one needs.

ghost use Rattle.std.specs.Prelude.{◌≡◌, ℕ, ◌+◌, ◌-◌, ◌<◌, ◌≤◌, IfOk, OnOk, length, slice_index, slice_set, true};
ghost use Rattle.mm_model.specs.Image.{Image as ImageValue};
ghost use Rattle.mm_why.specs.Derivations.{line_at, Names, EachFollows, NoneTwice, IsDerivation, Says};
ghost use Rattle.mm_why.specs.Pruning.{NameEarlier, AddsNamed, Needs, moved, AreKept, HaveKept};

use crate::line::{Line, Rule};
use crate::lines::push;
use mm_word::NoMemory;
use std::alloc::Global;

/// Notes a line.
fn note(needed: &mut [bool], line: usize)
    requires { line < length needed.old }
    ensures { needed.new ≡ slice_set needed.old line true }
{
    needed[line] = true;
}

/// Notes the lines that a rule names.
fn need(needed: &mut [bool], rule: Rule)
    requires { (j : ℕ) → Names rule j → j < length needed.old }
    ensures { AddsNamed rule needed.old needed.new }
{
    match rule {
        Rule::Register { .. } | Rule::Runs { .. } => {}
        Rule::Cell { by, .. } => note(needed, by),
        Rule::Below { by } => note(needed, by),
        Rule::Passed {
            from,
            store,
            load,
            ..
        } => {
            note(needed, from);
            note(needed, store);
            note(needed, load);
        }
        Rule::Entered { by } => note(needed, by),
        Rule::Served { from, .. } => note(needed, from),
        Rule::Made { by } => note(needed, by),
    }
}

/// The new index of a line.
fn place_of(places: &[usize], line: usize) -> usize
    requires { line < length places.now }
    ensures { result ≡ slice_index places.now line }
{
    places[line]
}

/// The rule with other indices for the lines that it names.
fn moved(rule: Rule, places: &[usize]) -> Rule
    requires { (j : ℕ) → Names rule j → j < length places.now }
    ensures { result ≡ moved (λ j. slice_index places.now j) rule }
{
    match rule {
        Rule::Register { .. } | Rule::Runs { .. } => rule,
        Rule::Cell { word, by } => Rule::Cell {
            word,
            by: place_of(places, by),
        },
        Rule::Below { by } => Rule::Below {
            by: place_of(places, by),
        },
        Rule::Passed {
            word,
            from,
            store,
            load,
        } => Rule::Passed {
            word,
            from: place_of(places, from),
            store: place_of(places, store),
            load: place_of(places, load),
        },
        Rule::Entered { by } => Rule::Entered {
            by: place_of(places, by),
        },
        Rule::Served { slot, from } => Rule::Served {
            slot,
            from: place_of(places, from),
        },
        Rule::Made { by } => Rule::Made {
            by: place_of(places, by),
        },
    }
}

/// Notes the lines that the line at an index names, if it is needed.
fn need_at(needed: &mut [bool], lines: &[Line], at: usize)
    requires small { at < length needed.old }
    requires fits { length needed.old ≤ length lines.now }
    requires earlier { NameEarlier lines.now }
    ensures { (last : ℕ) → Needs lines.now last (at + 1) needed.old → Needs lines.now last at needed.new }
{
    if needed[at] {
        let line = lines[at];
        need(needed, line.rule);
    }
}

/// For each line up to the last one whether that needs it.
fn needed_by(alloc: Global, lines: &[Line], last: usize) -> Result<Vec<bool>, NoMemory>
    requires small { last < length lines.now }
    requires earlier { NameEarlier lines.now }
    ensures { IfOk result (λ needed. Needs lines.now last 0 needed.items) }
{
    let mut needed = vec![in alloc; false; last + 1]?;
    needed[last] = true;
    for k in 0..last + 1 {
        need_at(&mut needed, lines, last - k);
    }
    Ok(needed)
}

/// Adds the line at an index, with the new indices in its rule, if it is needed.
fn keep(
    places: &mut [usize],
    out: &mut Vec<Line>,
    lines: &[Line],
    needed: &[bool],
    k: usize,
) -> Result<(), NoMemory>
    requires small { k < length needed.now }
    requires fits { length needed.now ≤ length lines.now }
    requires earlier { NameEarlier lines.now }
    requires kept { AreKept lines.now needed.now k places.old out.old.items }
    ensures { OnOk result (AreKept lines.now needed.now (k + 1) places.new out.new.items) }
{
    if !needed[k] {
        return Ok(());
    }
    let line = lines[k];
    places[k] = out.len();
    let rule = moved(line.rule, places);
    push(out, Line { rule, ..line })?;
    Ok(())
}

/// The lines that are needed, with the new indices in their rules.
fn kept(alloc: Global, lines: &[Line], needed: &[bool]) -> Result<Vec<Line>, NoMemory>
    requires small { length needed.now ≤ length lines.now }
    requires earlier { NameEarlier lines.now }
    ensures { IfOk result (λ out. HaveKept lines.now needed.now out.items) }
{
    let mut places = vec![in alloc; 0usize; needed.len()]?;
    let mut out = Vec::new(alloc);
    for k in 0..needed.len() {
        keep(&mut places, &mut out, lines, needed, k)?;
    }
    Ok(out)
}

/// The derivation of a line: of the lines up to it only those that it needs.
pub fn prune(alloc: Global, lines: &[Line], last: usize) -> Result<Vec<Line>, NoMemory>
    requires small { last < length lines.now }
    requires earlier { NameEarlier lines.now }
    ensures derivation { IfOk result (λ out. (i : ImageValue)
        → EachFollows i lines.now
        → NoneTwice lines.now
        → IsDerivation i out.items) }
    ensures last { IfOk result (λ out. Says
        out.items
        (length out.items)
        (length out.items - 1)
        (line_at lines.now last).group
        (line_at lines.now last).pointer) }
{
    let needed = needed_by(alloc, lines, last)?;
    kept(alloc, lines, &needed)
}
