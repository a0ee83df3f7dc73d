//! What `run`, `trace`, `log` and `save` are given: an image, an order and a number of cycles.

ghost use Rattle.std.specs.Prelude.{◌≤◌, ◌∷◌, [], IfOk, slice_get};
ghost use Rattle.mm_model.specs.Limits.{cycle_limit};
ghost use Rattle.mm_cli.specs.Arguments.{HasArguments, number_of, row};
ghost use Rattle.mm_cli.specs.Table.{files_of};
ghost use Rattle.mm_load.specs.Files.{FilesRead, reading};
ghost use Rattle.mm_load.specs.Kinds.{an_image, values_of};
ghost use Rattle.mm_top.specs.Orders.{AreIssued};
ghost use Rattle.mm_top.specs.Plans.{items_planned};

use mm_cli::{Command, Word, name_at, number_at, optional_name_at};
use mm_image::Image;
use mm_io::Files;
use mm_load::{CommandError, load_file, load_order};
use mm_sched::Order;
use std::alloc::Global;

/// An image, the order in which its cycles are issued, and how many at most.
#[derive(Drop)]
pub struct Plan {
    pub image: Image,
    pub order: Order,
    pub cycles: u64,
}

/// Reads what the words `IMAGE CYCLES [SCHEDULE]` name, as those of `run` do.
pub fn load_plan<F: Files>(
    alloc: Global,
    words: &[Word<'_>],
    files: &mut F,
) -> Result<Plan, CommandError>
    requires { HasArguments Command.Run words.now }
    ensures read { FilesRead (reading F.held F.faults F.asked files.old files.new) []
        (files_of (row Command.Run words.now)) (λ p. an_image p.image ∷ values_of p.order) result }
    ensures few { IfOk result (λ p. p.cycles ≤ cycle_limit) }
    ensures issues { IfOk result (λ p. AreIssued p.image (number_of (slice_get words.now 1)) (values_of p.order)
        (items_planned p)) }
{
    let image = load_file::<Image, F>(alloc, files, name_at(words, 0), 1)?;
    let order = load_order(alloc, files, optional_name_at(words, 2), 2)?;
    let cycles = number_at(words, 1);
    Ok(Plan {
        image,
        order,
        cycles,
    })
}
