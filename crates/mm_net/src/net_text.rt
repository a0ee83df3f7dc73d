//! The text of a net.

ghost use Rattle.std.specs.Prelude.{◌≡◌, ◌<◌, ◌++◌, ℕ, List, length, Option, Some};
ghost use Rattle.mm_io.specs.Sinks.{Writes};
ghost use Rattle.mm_text.specs.Appends.{Appends};
ghost use Rattle.mm_model.specs.declared.counts.Counts.{Counts};
ghost use Rattle.mm_model.specs.Uses.{Use};
ghost use Rattle.mm_machine.specs.Machine.{state_of, StandsTo};
ghost use Rattle.mm_net.specs.declared.item.NetItem.{NetItem};
ghost use Rattle.mm_net.specs.Nets.{Carried};
ghost use Rattle.mm_net.specs.Net.{net_of, links_of, carried_in, NodesStandTo, StandsFor};
ghost use Rattle.mm_net.specs.Texts.{node_text, link_line, nodes_text, link_lines, net_text};

use crate::Net;
use mm_image::Image;
use mm_io::{Sink, WriteFault};
use mm_machine::Machine;
use mm_mem::{Inspect, Memory};
use mm_text::{Piece, TextBuffer, write_pieces};

/// Writes the text of a net against the images of its nodes: for each node, ascending, a line `node N` and the node's
/// report; then for each link, ascending, a line `link L sent N arrived M`. After a [`WriteFault`] the sink has taken a
/// prefix of the text.
pub fn report<M: Inspect, O: Sink>(
    net: &Net<M>,
    images: &[Image],
    out: &mut O,
) -> Result<(), WriteFault>
    requires { length images.now ≡ length (net_of net.now).nodes }
    // For every net, all of the text except the lines of counts, and when a `WriteFault` comes.
    ensures text { (counts : ℕ → Option Counts)
        × Writes O.taken O.faults out.old out.new
        (nodes_text images.now (net_of net.now).nodes counts ++ link_lines (net_of net.now).links) result }

    // The lines of counts, given what the memory of each node was asked.
    ensures state { (uses : ℕ → List Use) → NodesStandTo net.now uses
        → Writes O.taken O.faults out.old out.new
        (nodes_text images.now (net_of net.now).nodes (λ n. M.tells (uses n)) ++ link_lines (net_of net.now).links)
        result }

    // The text of the net to which items led from the start of these images.
    ensures run { (items : List NetItem) → StandsFor images.now items net.now
        → Writes O.taken O.faults out.old out.new (net_text M.tells (links_of net.now) images.now items) result }
{
    write_nodes(net, images, out)?;
    write_links(net, out)
}

/// Writes the reports of the nodes.
fn write_nodes<M: Inspect, O: Sink>(
    net: &Net<M>,
    images: &[Image],
    out: &mut O,
) -> Result<(), WriteFault>
    requires { length images.now ≡ length (net_of net.now).nodes }
    ensures text { (counts : ℕ → Option Counts)
        × Writes O.taken O.faults out.old out.new (nodes_text images.now (net_of net.now).nodes counts) result }
    ensures counts { (uses : ℕ → List Use) → NodesStandTo net.now uses
        → Writes O.taken O.faults out.old out.new
        (nodes_text images.now (net_of net.now).nodes (λ n. M.tells (uses n))) result }
{
    for n in 0..net.node_count() {
        let node = net.node(n).unwrap();
        write_node(n, node, &images[n as usize], out)?;
    }
    Ok(())
}

/// Writes the report of a node.
fn write_node<M: Inspect, O: Sink>(
    n: u8,
    node: &Machine<M>,
    image: &Image,
    out: &mut O,
) -> Result<(), WriteFault>
    ensures text { (counts : Option Counts)
        × Writes O.taken O.faults out.old out.new (node_text n image.now (state_of node.now) counts) result }
    ensures counts { (us : List Use) → StandsTo node.now us
        → Writes O.taken O.faults out.old out.new (node_text n image.now (state_of node.now) (M.tells us)) result }
{
    write_pieces(
        out,
        &[
            Piece::Text("node "),
            Piece::Decimal(n as u64),
            Piece::Text("\n"),
        ],
    )?;
    mm_report::report(node, image, out)
}

/// Writes the lines of the links.
fn write_links<M: Memory, O: Sink>(net: &Net<M>, out: &mut O) -> Result<(), WriteFault>
    ensures { Writes O.taken O.faults out.old out.new (link_lines (net_of net.now).links) result }
{
    let mut text = TextBuffer::new();
    for link in 0..net.link_count() {
        put_link(&mut text, out, net, link);
    }
    text.finish(out)
}

/// Appends the line of a link.
fn put_link<M: Memory, O: Sink>(text: &mut TextBuffer, out: &mut O, net: &Net<M>, link: u8)
    requires { link < length (links_of net.now) }
    ensures { (carried : Carried) → carried_in net.now link ≡ Some carried
        → Appends O.taken O.faults out.old out.new text.old text.new (link_line link carried) }
{
    text.put(
        out,
        &[
            Piece::Text("link "),
            Piece::Decimal(link as u64),
            Piece::Text(" sent "),
            Piece::Decimal(net.sent(link).len() as u64),
            Piece::Text(" arrived "),
            Piece::Decimal(net.arrived(link) as u64),
            Piece::Text("\n"),
        ],
    );
}
