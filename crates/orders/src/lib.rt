//! The order in which side blocks are listed: what an order is, and the two in use.

#![tactic(auto)]

ghost use Rattle.std.specs.Prelude.{◌≡◌, Bool, IsTrue, ◌↔◌};
ghost use Rattle.model.specs.Orders.{Before, Lawful, by_author, by_sonde, sonde_of, sort_of};
ghost use Rattle.model.proofs.OrderLaws.{by_author_lawful, by_sonde_lawful};

use model::{Entry, Name, SideBlock};

/// An order of side blocks: of two differently named blocks exactly one is before the other, none is before itself, and before is transitive.
pub trait Order {
    ghost precedes: { Before };

    /// Whether the first is before the second.
    fn before(a: &SideBlock, b: &SideBlock) -> bool
        ensures { result ≡ precedes a.now b.now };

    ghost lawful: { Lawful precedes };
}

/// By author, then name.
pub struct ByAuthor;

/// By sonde, release before bind, then name.
pub struct BySonde;

/// What the order by sonde goes by. A release is before a bind, as false is before true.
fn sonde_key(block: &SideBlock) -> (u32, bool, Name)
    ensures sonde { result.0 ≡ sonde_of block.now.entry }
    ensures sort { IsTrue result.1 ↔ (sort_of block.now.entry ≡ 1) }
    ensures name { result.2 ≡ block.now.name }
{
    match block.entry {
        Entry::Release { sonde, .. } => (sonde, false, block.name),
        Entry::Bind { sonde, .. } => (sonde, true, block.name),
    }
}

impl Order for ByAuthor {
    ghost precedes = { by_author };

    ghost lawful = { by_author_lawful };

    fn before(a: &SideBlock, b: &SideBlock) -> bool {
        (a.author, a.name) < (b.author, b.name)
    }
}

impl Order for BySonde {
    ghost precedes = { by_sonde };

    ghost lawful = { by_sonde_lawful };

    fn before(a: &SideBlock, b: &SideBlock) -> bool {
        sonde_key(a) < sonde_key(b)
    }
}
