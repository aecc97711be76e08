// A board over a source: the source is taken by value, so that one pile serves one board.
ghost use Rattle.std.specs.Prelude.{◌≡◌, true, is_err, Some};
ghost use Rattle.faults.specs.Checks.{judged, unless_fault};
ghost use Rattle.steps.specs.Adjust.{adjust_fault, adjusted};
ghost use Rattle.paths.specs.Augment.{augment_fault, Augmented};
ghost use Rattle.paths.specs.Walk.{is_root};
ghost use Rattle.rings.specs.Dissolve.{dissolve_fault, dissolved};
ghost use Rattle.tables.specs.States.{state};
ghost use Rattle.board.specs.Blossoms.{of_blossom, link_of};
ghost use Rattle.board.specs.Begins.{begin_fault, begun_with};
ghost use Rattle.board.specs.Fresh.{fresh};
ghost use Rattle.tables.specs.Kept.{Keeps};
ghost use Rattle.board.specs.Questions.{of_member, price_of, root_of, partner_of, loose_of, shown_saving, ground_saving, gap};
ghost use Rattle.board.specs.Released.{Released};
ghost use Rattle.board.specs.Steps.{Leaves, ShrinkLeaves};
ghost use Rattle.board.specs.Truth.{Shows, StillShows, Bounds};

use crate::adjusting::adjust;
use crate::beginning::{begin, check_begin};
use crate::blossom_questions::{blossom_price, link};
use crate::making::tables_of;
use crate::questions::{check_member, gap, loose, partner, partners, saved};
use crate::saving::Saving;
use crate::writing::{set_mates, set_place};
use adjusts::check_adjust;
use augments::mates_after;
use blossoms::{ring_of, roots_after};
use faults::layers::BoardFault;
use plan::plan::Plan;
use sources::source::Source;
use tables::tables::Tables;
use tables::view::View;
use walks::is_root;

#[derive(Drop)]
pub struct Board<S> {
    source: S,
    tables: Tables,
    ghost kept: { Keeps tables },
}

impl<S: Source + Drop> Board<S> {
    // A new board: nothing is paired, and it is not begun.
    pub fn new(source: S) -> Board<S>
        ensures source { result.source ≡ source }
        ensures tables { result.tables ≡ fresh (S.Source.size source) (S.Source.rows source) (S.Source.highest source) }
        ensures shows { Shows (S.Source.size source) (S.Source.rows source) (S.Source.highest source) result.tables }
    {
        let tables = tables_of(&source);
        Board { source, tables }
    }

    // The tables for reading, with what they keep.
    fn view(&self) -> View<'_>
        ensures { result.tables.now ≡ self.now.tables }
    {
        View {
            tables: &self.tables,
        }
    }

    // The most that any other pairing of the same offers can save beyond this one.
    pub fn slack(&self) -> u64
        ensures value { result ≡ S.Source.carried self.now.source (gap self.now.tables) }
        ensures truth { Shows (S.Source.size self.now.source) (S.Source.rows self.now.source) (S.Source.highest self.now.source) self.now.tables → Bounds (S.Source.rows self.now.source) (ground_saving self.now.tables) result }
    {
        self.source.carry(gap(self.view()))
    }

    // Starts the prices: the floor and every price at 2k × top ticks of 1/(2k) mm.
    pub fn begin(&mut self, k: u32) -> Result<(), BoardFault>
        ensures value { result ≡ judged (begin_fault self.old.tables k) }
        ensures after { self.new.tables ≡ unless_fault (begin_fault self.old.tables k) (begun_with self.old.tables k) self.old.tables }
        ensures source { self.new.source ≡ self.old.source }
        ensures shows { StillShows self.old.tables self.new.tables }
    {
        check_begin(&self.tables, k)?;
        begin(&mut self.tables, k);
        Ok(())
    }

    // Moves the prices by a label for each member: 0 none, 1 out, 2 in.
    pub fn adjust(&mut self, labels: &[u8]) -> Result<(), BoardFault>
        ensures value { result ≡ judged (adjust_fault (state self.old.tables) labels.now) }
        ensures after { state self.new.tables ≡ unless_fault (adjust_fault (state self.old.tables) labels.now) (adjusted (state self.old.tables) labels.now) (state self.old.tables) }
        ensures refused { is_err result ≡ true → self.new.tables ≡ self.old.tables }
        ensures source { self.new.source ≡ self.old.source }
        ensures shows { StillShows self.old.tables self.new.tables }
    {
        // Here and in the steps below the view is made at its call: with a function between, that nothing else changed finds no proof.
        let view = View {
            tables: &self.tables,
        };
        let common = check_adjust(view, labels)?;
        adjust(&mut self.tables, labels, &common);
        Ok(())
    }

    // Exchanges paired and unpaired along a list of offers that leads from a loose root through different roots to another.
    pub fn augment(&mut self, root: usize, offers: &[u16]) -> Result<(), BoardFault>
        ensures value { result ≡ judged (augment_fault (state self.old.tables) root offers.now) }
        ensures after { Leaves (augment_fault (state self.old.tables) root offers.now) (Augmented (state self.old.tables) root offers.now) (state self.old.tables) (state self.new.tables) }
        ensures refused { is_err result ≡ true → self.new.tables ≡ self.old.tables }
        ensures source { self.new.source ≡ self.old.source }
        ensures shows { StillShows self.old.tables self.new.tables }
    {
        let view = View {
            tables: &self.tables,
        };
        let mates = mates_after(view, root, offers)?;
        set_mates(&mut self.tables, mates);
        Ok(())
    }

    // Makes a blossom of the roots that a list of offers leads through and back to the first, and answers its number.
    pub fn shrink(&mut self, root: usize, offers: &[u16]) -> Result<usize, BoardFault>
        ensures answer { ShrinkLeaves (state self.old.tables) root offers.now result (state self.new.tables) }
        ensures refused { is_err result ≡ true → self.new.tables ≡ self.old.tables }
        ensures source { self.new.source ≡ self.old.source }
        ensures shows { StillShows self.old.tables self.new.tables }
    {
        let view = View {
            tables: &self.tables,
        };
        let ring = ring_of(view, root, offers)?;
        set_place(&mut self.tables, ring.place, Some(ring.blossom), ring.roots);
        Ok(200 + ring.place)
    }

    // Makes the parts of a root blossom of price 0 roots, and its number free.
    pub fn dissolve(&mut self, node: usize) -> Result<(), BoardFault>
        ensures value { result ≡ judged (dissolve_fault (state self.old.tables) node) }
        ensures after { state self.new.tables ≡ unless_fault (dissolve_fault (state self.old.tables) node) (dissolved (state self.old.tables) node) (state self.old.tables) }
        ensures refused { is_err result ≡ true → self.new.tables ≡ self.old.tables }
        ensures source { self.new.source ≡ self.old.source }
        ensures shows { StillShows self.old.tables self.new.tables }
    {
        let view = View {
            tables: &self.tables,
        };
        let roots = roots_after(view, node)?;
        set_place(&mut self.tables, node - 200, None, roots);
        Ok(())
    }

    // The k that the board was begun with, if it was.
    pub fn begun(&self) -> Option<u32>
        ensures { result ≡ self.now.tables.begun }
    {
        self.tables.begun
    }

    pub fn members(&self) -> usize
        ensures { result ≡ self.now.tables.members }
    {
        self.tables.members
    }

    // The floor in ticks; 0 before begin.
    pub fn floor(&self) -> u32
        ensures { result ≡ self.now.tables.floor }
    {
        self.tables.floor
    }

    // A member's price in ticks; 0 before begin.
    pub fn price(&self, member: usize) -> Result<u32, BoardFault>
        ensures { result ≡ of_member self.now.tables member (price_of self.now.tables member) }
    {
        check_member(&self.tables, member)?;
        Ok(self.tables.prices[member])
    }

    // The root that a member lies in.
    pub fn root(&self, member: usize) -> Result<usize, BoardFault>
        ensures { result ≡ of_member self.now.tables member (root_of self.now.tables member) }
    {
        check_member(&self.tables, member)?;
        Ok(self.tables.roots[member] as usize)
    }

    // Whether a node is a root.
    pub fn is_root(&self, node: usize) -> bool
        ensures { result ≡ is_root (state self.now.tables) node }
    {
        is_root(self.view(), node)
    }

    // The price of a blossom in ticks, and nothing of a node that is none.
    pub fn blossom_price(&self, node: usize) -> Option<u32>
        ensures { result ≡ of_blossom (state self.now.tables) node (λ b. Some b.price) }
    {
        blossom_price(self.view(), node)
    }

    // The part at a place of a blossom's ring and the offer that joins it to the next, and nothing past the last part.
    pub fn link(&self, node: usize, at: usize) -> Option<(u16, u16)>
        ensures { result ≡ of_blossom (state self.now.tables) node (link_of at) }
    {
        link(self.view(), node, at)
    }

    // The member that a member is paired with, if any.
    pub fn partner(&self, member: usize) -> Result<Option<u32>, BoardFault>
        ensures { result ≡ of_member self.now.tables member (partner_of self.now.tables member) }
    {
        check_member(&self.tables, member)?;
        Ok(partner(self.view(), member))
    }

    // How many members the pairing leaves out.
    pub fn loose(&self) -> usize
        ensures { result ≡ loose_of self.now.tables }
    {
        loose(self.view())
    }

    // The shown saving of the pairing.
    pub fn shown(&self) -> u64
        ensures { result ≡ shown_saving self.now.tables }
    {
        saved(self.view(), Saving::Shown)
    }

    // The ground saving of the pairing.
    pub fn ground(&self) -> u64
        ensures { result ≡ ground_saving self.now.tables }
    {
        saved(self.view(), Saving::Ground)
    }

    // Uses up the board, and gives its plan.
    pub fn release(self) -> Plan
        ensures value { Released self.tables (S.Source.carried self.source (gap self.tables)) result }
        ensures truth { Shows (S.Source.size self.source) (S.Source.rows self.source) (S.Source.highest self.source) self.tables → Bounds (S.Source.rows self.source) result.ground result.slack }
    {
        Plan {
            members: self.members(),
            shown: self.shown(),
            ground: self.ground(),
            slack: self.slack(),
            floor: self.floor(),
            loose: self.loose(),
            partners: partners(self.view()),
        }
    }
}
