//! Links between groups of which one serves the other.

ghost use Rattle.std.specs.Prelude.{◌≡◌, length};
ghost use Rattle.mm_graph.specs.Nodes.{IsLinks};
ghost use Rattle.mm_graph.specs.Linking.{IsLink, LinksTo, LinksOne};

use mm_model::Slot;

/// Links two groups, both ways.
fn link(links: &mut [u64], g: u8, h: u8)
    requires { length links.old ≡ 64 }
    ensures { IsLink g h links.old links.new }
{
    if g < 64 && h < 64 {
        links[g as usize] |= 1u64 << h;
        links[h as usize] |= 1u64 << g;
    }
}

/// Links the groups of two slots, if the second is the handler of the first.
fn link_to(links: &mut [u64], served: &Slot, server: &Slot)
    requires { length links.old ≡ 64 }
    ensures { LinksTo served.now server.now links.old links.new }
{
    if served.handler == Some(server.number) {
        link(links, served.group, server.group);
    }
}

/// Links the group of a slot with that of its handler.
fn link_slot(links: &mut [u64], slots: &[Slot], served: &Slot)
    requires { length links.old ≡ 64 }
    ensures { LinksOne slots.now served.now (length slots.now) links.old links.new }
{
    for k in 0..slots.len() {
        link_to(links, served, &slots[k]);
    }
}

/// For each group the mask of the groups that serve it or that it serves: they share all that they have.
pub fn links_of(slots: &[Slot]) -> [u64; 64]
    ensures { IsLinks slots.now result }
{
    let mut links = [0u64; 64];
    for k in 0..slots.len() {
        link_slot(&mut links, slots, &slots[k]);
    }
    links
}
