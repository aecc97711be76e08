// A board's tables lent for reading, with what every board keeps.
ghost use Rattle.std.specs.Prelude.{◌≡◌, ◌<◌, ◌≤◌, ◌&&◌, length, nat_lt};
ghost use Rattle.std.specs.Option.{option_map};
ghost use Rattle.matching.specs.Rows.{row};
ghost use Rattle.matching.specs.State.{paired_in, node_holds};
ghost use Rattle.tables.specs.States.{offered, state, place, ring_in};
ghost use Rattle.tables.specs.Kept.{Keeps};

use crate::node::Node;
use crate::tables::{Blossom, Link, Tables};
use matching::row::Row;

#[derive(Clone, Copy)]
pub struct View<'a> {
    pub tables: &'a Tables,
    ghost kept: { Keeps tables.now },
}

impl<'a> View<'a> {
    // An offer by its number; past the last, one of member 0 with itself that saves nothing.
    pub fn row(self, offer: usize) -> Row
        ensures value { result ≡ row (offered self.entry.tables.now) offer }
        ensures ends { (result.first < 200) × (result.second < 200) }
        ensures shown { result.shown ≤ 100000 }
    {
        let tables = self.tables;
        if offer < tables.offers {
            tables.rows[offer]
        } else {
            Row::default()
        }
    }

    // Whether there is such an offer and it pairs its members.
    pub fn is_paired(self, offer: usize) -> bool
        ensures { result ≡ (nat_lt offer self.entry.tables.now.offers && paired_in (state self.entry.tables.now) offer) }
    {
        let tables = self.tables;
        let first = self.row(offer).first as usize;
        offer < tables.offers && tables.mates[first].is_some_and(|mate| mate as usize == offer)
    }

    // The blossom at a place, if there is one.
    pub fn blossom(self, at: usize) -> Option<&'a Blossom>
        ensures { option_map (λ b. b.now) result ≡ place self.entry.tables.now at }
    {
        self.tables.blossoms.get(at)?.as_ref()
    }

    // The ring of the blossom at a place, and nothing where there is none.
    pub fn ring(self, at: usize) -> &'a [Link]
        ensures value { result.now ≡ ring_in (place self.entry.tables.now at) }
        ensures few { length result.now ≤ 200 }
    {
        match self.blossom(at) {
            Some(blossom) => blossom.ring(),
            None => &[],
        }
    }

    // Whether a node holds a member. By `match`, since with a closure the goal stays open.
    pub fn holds(self, node: usize, member: usize) -> bool
        ensures { result ≡ node_holds (state self.entry.tables.now) node member }
    {
        match Node::from(node) {
            Node::Member(own) => own == member,
            Node::Blossom(at) => match self.blossom(at) {
                Some(blossom) => blossom.holds.get(member).copied().unwrap_or(false),
                None => false,
            },
        }
    }
}
