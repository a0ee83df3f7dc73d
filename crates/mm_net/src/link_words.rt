//! The words of a text of links.

ghost use Rattle.std.specs.Prelude.{◌≡◌, ◌≢◌, ℕ, IfSome, IsNone};
ghost use Rattle.mm_net.specs.Links.{IsEnd, IsLink, end_text, link_text};

use crate::Link;
use crate::word_parts::split;
use mm_sched::number;

/// The address of the last word of a memory.
const LAST_WORD: u64 = (1 << 54) - 8;

/// The node and the address that a text `A.X` says; `None` if it is no end of a link.
fn end(text: &[u8]) -> Option<(u8, u64)>
    ensures some { IfSome result (λ named. IsEnd named.0 named.1 × (text.now ≡ end_text named.0 named.1)) }
    ensures none { IsNone result → (node address : ℕ) → IsEnd node address → text.now ≢ end_text node address }
{
    let (node, address) = split(text, b'.')?;
    let node = number(node, 7)?;
    let address = number(address, LAST_WORD)?;
    if address % 8 == 0 {
        Some((node as u8, address))
    } else {
        None
    }
}

/// The link that a word `A.X>B.Y` says; `None` if the word is no link.
pub fn link(word: &[u8]) -> Option<Link>
    ensures some { IfSome result (λ link. IsLink link × (word.now ≡ link_text link)) }
    ensures none { IsNone result → (link : Link) → IsLink link → word.now ≢ link_text link }
{
    let (from, to) = split(word, b'>')?;
    let (from, take) = end(from)?;
    let (to, put) = end(to)?;
    Some(Link {
        from,
        take,
        to,
        put,
    })
}
