//! `grants`: what each group of an image can reach.

ghost use Rattle.std.specs.Prelude.{List, Option, ℕ};
ghost use Rattle.std.specs.Option.{option_map};
ghost use Rattle.mm_io.specs.Sinks.{Writes};
ghost use Rattle.mm_model.specs.Audit.{IsAudit};
ghost use Rattle.mm_model.specs.Reach.Entries.{All};
ghost use Rattle.mm_audit.specs.Surveys.{Surveys};
ghost use Rattle.mm_load.specs.Files.{reading};
ghost use Rattle.mm_cli.specs.Arguments.{row};
ghost use Rattle.mm_top.specs.Commands.{YieldsAlone};
ghost use Rattle.mm_top.specs.Answers.{CommandEnds, EndsWith, writing};

use mm_audit::{Entries, Survey, survey};
use mm_audit_text::{write_audit, write_audit_of};
use mm_cli::{Command, Word, name_at, optional_groups_at};
use mm_image::Image;
use mm_io::{Files, Sink, WriteFault};
use mm_load::{CommandError, load_file};
use std::alloc::Global;

/// `grants IMAGE [GROUPS]`
pub fn grants<F: Files, O: Sink>(
    alloc: Global,
    words: &[Word<'_>],
    files: &mut F,
    out: &mut O,
) -> Result<(), CommandError>
    ensures { CommandEnds (reading F.held F.faults F.asked files.old files.new)
        (writing O.taken O.faults out.old out.new) YieldsAlone (row Command.Grants words.now) result }
{
    let image = load_file::<Image, F>(alloc, files, name_at(words, 0), 1)?;
    write_grants(alloc, &image, optional_groups_at(words, 1), out)
}

/// Writes the audit of an image, with the answer for the groups if groups are given.
fn write_grants<O: Sink>(
    alloc: Global,
    image: &Image,
    groups: Option<&[u8]>,
    out: &mut O,
) -> Result<(), CommandError>
    ensures { EndsWith (writing O.taken O.faults out.old out.new)
        (IsAudit image.now (option_map (λ list. list.now) groups.entry)) result }
{
    let survey = survey(alloc, image, &Entries::All)?;
    write_text(&survey, image, groups, out)?;
    Ok(())
}

/// Writes the audit of an image, given what each group can reach.
fn write_text<O: Sink>(
    survey: &Survey,
    image: &Image,
    groups: Option<&[u8]>,
    out: &mut O,
) -> Result<(), WriteFault>
    ensures { (text : List ℕ) × Writes O.taken O.faults out.old out.new text result
        × (Surveys image.now All survey.now → IsAudit image.now (option_map (λ list. list.now) groups.entry) text) }
{
    match groups {
        None => write_audit(survey, image, out),
        Some(groups) => write_audit_of(survey, image, groups, out),
    }
}
