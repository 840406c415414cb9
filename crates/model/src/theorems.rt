//! Theorems on the rules, each the contract of a function that does nothing else.

ghost use Rattle.std.specs.Prelude.{◌≡◌, Decides};
ghost use Rattle.std.specs.Ordering.{partial_lt};
ghost use Rattle.model.specs.declared.names.Name.{Name as NameT};
ghost use Rattle.model.specs.declared.blocks.References.{References as ReferencesT};
ghost use Rattle.model.specs.declared.blocks.Entry.{Entry as EntryT};
ghost use Rattle.model.specs.declared.blocks.Parent.{Parent as ParentT};
ghost use Rattle.model.specs.declared.blocks.SideBlock.{SideBlock as SideT};
ghost use Rattle.model.specs.declared.blocks.BackboneBlock.{BackboneBlock as BackboneT};
ghost use Rattle.model.specs.declared.blocks.Block.{Block as BlockT};
ghost use Rattle.model.specs.Blocks.{referred, same_names, same_entry, same_parent, same_side, same_backbone, same_block};
ghost use Rattle.model.specs.Names.{same};
ghost use Rattle.model.specs.Orders.{name_before};
ghost use Rattle.model.specs.Laws.{AllEnter, FirstQuorumGives, StationByStation};
ghost use Rattle.model.specs.Quorums.{MaskLaws, QuorumLaws};
ghost use Rattle.model.specs.StationLaws.{CallsFollow, VotesOnce, SentInOrder, WhatIsStated};

use crate::blocks::{BackboneBlock, Block, Entry, Parent, References, SideBlock};
use crate::names::Name;

/// Any two quorums share a station that does not lie, and the stations that do not lie are a quorum; what masks are,
/// station by station.
pub fn quorums_stand()
    ensures quorums { QuorumLaws }
    ensures masks { MaskLaws }
{}

/// What masks and ledgers are, station by station; which Hear gives the second vote; that all of a mask is entered.
pub fn ledgers_stand()
    ensures stations { StationByStation }
    ensures gives { FirstQuorumGives }
    ensures enters { AllEnter }
{}

/// Whatever a station is called with, its view, its height and its target do not fall, and in one view a vote stays; so it casts one first
/// vote and gives one second vote in a view, and no second vote after a Probe that does not adopt.
/// What a call sends is in the outbox afterwards, and it tells which of it are statements.
pub fn stations_stand()
    ensures follow { CallsFollow }
    ensures votes { VotesOnce }
    ensures sent { SentInOrder }
    ensures stated { WhatIsStated }
{}

/// The derived comparisons: `==` of names, and of blocks and their parts, is the sameness of the rules, and of names and blocks it decides
/// whether the two are equal; `<` of names goes by the first number, then the second.
pub fn comparisons_stand()
    ensures names { (a b : NameT) → ⟦<Name as PartialEq>⟧.eq a b ≡ same a b }
    ensures equal_names { (a b : NameT) → Decides (⟦<Name as PartialEq>⟧.eq a b) (a ≡ b) }
    ensures before { (a b : NameT) → partial_lt ⟦<Name as PartialOrd>⟧.partial_cmp a b ≡ name_before a b }
    ensures references { (a b : ReferencesT) → ⟦<References as PartialEq>⟧.eq a b ≡ same_names (referred a) (referred b) }
    ensures entries { (a b : EntryT) → ⟦<Entry as PartialEq>⟧.eq a b ≡ same_entry a b }
    ensures parents { (a b : ParentT) → ⟦<Parent as PartialEq>⟧.eq a b ≡ same_parent a b }
    ensures sides { (a b : SideT) → ⟦<SideBlock as PartialEq>⟧.eq a b ≡ same_side a b }
    ensures backbones { (a b : BackboneT) → ⟦<BackboneBlock as PartialEq>⟧.eq a b ≡ same_backbone a b }
    ensures blocks { (a b : BlockT) → ⟦<Block as PartialEq>⟧.eq a b ≡ same_block a b }
    ensures equal_blocks { (a b : BlockT) → Decides (⟦<Block as PartialEq>⟧.eq a b) (a ≡ b) }
{}
