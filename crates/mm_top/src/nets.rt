//! `net`: images as nodes, joined by links.

ghost use Rattle.std.specs.Prelude.{◌≡◌, ◌+◌, ◌++◌, ◌≤◌, ◌^◌, List, MatchOption, IfOk, length, take};
ghost use Rattle.std.specs.List.{All, count_by};
ghost use Rattle.mm_model.specs.Schedule.{item_limit};
ghost use Rattle.mm_model.specs.Image.{Image as model};
ghost use Rattle.mm_net.specs.declared.item.NetItem.{NetItem as Item};
ghost use Rattle.mm_net.specs.Net.{net_of, links_of, room_of, steps_of, sent_count, AllStart, IsUnused, StandsFor};
ghost use Rattle.mm_net.specs.Texts.{net_text};
ghost use Rattle.mm_load.specs.Files.{reading};
ghost use Rattle.mm_cli.specs.Arguments.{HasArguments, row};
ghost use Rattle.mm_top.specs.Nodes.{FirstLacking, NoneLacking, JoinRefused, is_send};
ghost use Rattle.mm_top.specs.Commands.{Yields};
ghost use Rattle.mm_top.specs.Answers.{CommandEnds, Ends, writing};

use crate::boot::boot;
use mm_cli::{Command, Word, name_at, names_at, number_at};
use mm_image::Image;
use mm_io::{Files, Sink};
use mm_load::{CommandError, Refusal, ended, load_file, load_images};
use mm_machine::Machine;
use mm_mem::{Boot, Memory};
use mm_net::{Events, Link, Links, Net, NetItem, report};
use mm_word::NoMemory;
use std::alloc::Global;

/// `net LINKS EVENTS CYCLES IMAGE..`
pub fn run_net<M: Boot, F: Files, O: Sink>(
    alloc: Global,
    words: &[Word<'_>],
    files: &mut F,
    out: &mut O,
) -> Result<(), CommandError>
    requires { HasArguments Command.Net words.now }
    ensures { CommandEnds (reading F.held F.faults F.asked files.old files.new)
        (writing O.taken O.faults out.old out.new) (Yields M.tells) (row Command.Net words.now) result }
{
    let links = load_file::<Links, F>(alloc, files, name_at(words, 0), 1)?;
    let events = load_file::<Events, F>(alloc, files, name_at(words, 1), 2)?;
    let images = load_images(alloc, files, names_at(words, 3), 3)?;
    write_net::<M, O>(alloc, links, &events, &images, number_at(words, 2), out)
}

/// Writes what a net of images comes to after up to `cycles` events: the report of each node, and what each link
/// carried.
fn write_net<M: Boot, O: Sink>(
    alloc: Global,
    links: Links,
    events: &Events,
    images: &[Image],
    cycles: u64,
    out: &mut O,
) -> Result<(), CommandError>
    requires some { 1 ≤ length images.now }
    requires few { length images.now ≤ 8 }
    ensures { Ends (writing O.taken O.faults out.old out.new) (JoinRefused links (length images.now)) ⊥
        (λ text. NoneLacking links (length images.now)
        × (text ≡ net_text M.tells links images.now (take cycles events.now))) result }
{
    if let Some(link) = lacking_link(links.items(), images.len()) {
        return Err(CommandError::Refused(Refusal::NoNode { link }));
    }
    let items = events.items();
    let first = &items[..cycles.min(items.len() as u64) as usize];
    let nodes: Vec<Machine<M>> = boot_nodes(alloc, images)?;
    let mut net = Net::new(alloc, nodes, links, count_sends(first))?;
    issue_items(&mut net, first);
    ended(report(&net, images, out))
}

/// The least link that names a node that is not there, given the number of nodes.
fn lacking_link(links: &[Link], count: usize) -> Option<u8>
    requires { length links.now ≤ 64 }
    ensures { MatchOption result (NoneLacking links.now count) (λ l. FirstLacking links.now count l) }
{
    for (l, link) in links.iter().enumerate() {
        if link.from as usize >= count || link.to as usize >= count {
            return Some(l as u8);
        }
    }
    None
}

/// The machines of images at their start.
fn boot_nodes<M: Boot>(alloc: Global, images: &[Image]) -> Result<Vec<Machine<M>>, NoMemory>
    ensures start { IfOk result (λ nodes. AllStart images.now nodes.items) }
    ensures unused { IfOk result (λ nodes. All IsUnused nodes.items) }
{
    let mut nodes = Vec::new(alloc);
    for image in images {
        let node = boot(alloc, image)?;
        nodes.push(node)?;
    }
    Ok(nodes)
}

/// The number of items by which a link takes. Each of them sends at most one integer.
fn count_sends(items: &[NetItem]) -> u32
    requires { length items.now ≤ item_limit }
    ensures count { result ≡ count_by is_send items.now }
    ensures most { result ≤ item_limit }
{
    items.iter().filter(|item| is_send(item)).count() as u32
}

/// Whether a link takes by this item.
fn is_send(item: &NetItem) -> bool
    ensures { result ≡ is_send item.now }
{
    matches!(item, NetItem::Send { .. })
}

/// Issues the items. There has to be room for what they send.
fn issue_items<M: Memory>(net: &mut Net<M>, items: &[NetItem])
    requires few { steps_of net.old + length items.now ≤ 2 ^ 32 }
    requires room { sent_count (net_of net.old) + count_by is_send items.now ≤ room_of net.old }
    ensures runs { (images : List model) (before : List Item) → StandsFor images before net.old
        → StandsFor images (before ++ items.now) net.new }
    ensures links { links_of net.new ≡ links_of net.old }
    ensures count { length (net_of net.new).nodes ≡ length (net_of net.old).nodes }
{
    for item in items {
        net.step(*item);
    }
}
