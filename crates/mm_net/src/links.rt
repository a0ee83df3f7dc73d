//! Links of a net, read from text.

ghost use Rattle.std.specs.Prelude.{◌≡◌, ◌⊎◌, ℕ, List, ◌++◌, ◌∷◌, [], IfOk, IsTrue, ◌↔◌, Ok, Err};
ghost use Rattle.std.specs.List.{list_any};
ghost use Rattle.mm_net.specs.Links.{IsLink, AreLinks, Means, FaultsAt};
ghost use Rattle.mm_net.specs.Marks.{has_end};

use crate::link_words::link;
use crate::{Link, NetError};
use mm_sched::{TextItem, read_items};
use mm_word::NoMemory;
use std::alloc::Global;
use std::marker::Model;

/// The most links of a net.
pub const LINK_LIMIT: usize = 64;

/// At most 64 links between nodes 0 to 7. The address of each word is a multiple of 8 below 2^54, and no end (a node
/// and an address) occurs twice. Contracts see the list.
#[derive(Drop)]
pub struct Links {
    items: Vec<Link>,
}

impl Model for Links {
    ghost use Rattle.std.specs.Prelude.{List};
    ghost use Rattle.mm_net.specs.declared.link.Link.{Link};
    ghost use Rattle.mm_net.specs.Links.{AreLinks};

    ghost Value = { List Link };

    ghost view = { λ l. l.items.items };

    ghost invariant = { λ l. AreLinks l.items.items };
}

impl Links {
    ghost use Rattle.mm_net.specs.Links.{AreLinks};

    /// The links, in order.
    pub fn items(&self) -> &[Link]
        ensures items { result.now ≡ self.now }
        ensures rules { AreLinks self.now }
    {
        self.items.as_slice()
    }
}

/// Whether one of the links takes or puts at this address of the node.
fn is_end(links: &[Link], node: u8, address: u64) -> bool
    ensures { result ≡ list_any (has_end node address) links.now }
{
    links.iter().any(|link| (link.from == node && link.take == address)
        || (link.to == node && link.put == address))
}

/// Whether the links keep their rules with one link more.
fn fits(links: &[Link], more: Link) -> bool
    requires links { AreLinks links.now }
    requires more { IsLink more }
    ensures { IsTrue result ↔ AreLinks (links.now ++ more ∷ []) }
{
    if links.len() >= LINK_LIMIT {
        return false;
    }
    if more.from == more.to && more.take == more.put {
        return false;
    }
    if is_end(links, more.from, more.take) {
        return false;
    }
    !is_end(links, more.to, more.put)
}

impl TextItem for Link {
    ghost use Rattle.mm_net.specs.Links.{Says, AreLinks};

    ghost says = { λ word said. Says word said };

    ghost keeps = { λ links. AreLinks links };

    fn add_word(links: &mut Vec<Link>, word: &[u8]) -> Result<bool, NoMemory> {
        let Some(more) = link(word) else {
            return Ok(false); // no link
        };
        if !fits(links, more) {
            return Ok(false); // one too many, or an end that occurs twice
        }
        links.push(more)?;
        Ok(true)
    }
}

/// The links that a text means: items `A.X>B.Y` between blanks, and comments from `#` to the end of the line. The link
/// takes at address X of node A and puts at address Y of node B. A text that means none has a fault. `NoMemory` comes
/// if memory ran out.
pub fn read_links(alloc: Global, bytes: &[u8]) -> Result<Links, NetError>
    ensures means { IfOk result (λ links. Means bytes.now links) }
    ensures fault { (offset : ℕ) → result ≡ Err (NetError.Fault offset) → FaultsAt bytes.now offset }

    // A text that means links is read as these, and a text that faults is refused at its fault.
    ensures reads { (links : List Link) → Means bytes.now links → (result ≡ Ok links)
        ⊎ (result ≡ Err NetError.NoMemory) }
    ensures refuses { (offset : ℕ) → FaultsAt bytes.now offset → (result ≡ Err (NetError.Fault offset))
        ⊎ (result ≡ Err NetError.NoMemory) }
{
    let items = read_items(alloc, bytes, LINK_LIMIT)?;
    Ok(Links { items })
}
