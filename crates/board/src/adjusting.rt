// The write half of adjust, which moves every price by the labels and cannot fail.
ghost use Rattle.std.specs.Prelude.{◌≡◌, ◌<◌, ◌≤◌, ◌≢◌, length};
ghost use Rattle.steps.specs.Adjust.{moved, moved_blossom};
ghost use Rattle.tables.specs.States.{blossom_of, place};
ghost use Rattle.tables.specs.Prices.{place_moved};
ghost use Rattle.board.specs.Moves.{Low, LowBlossoms, members_moved, blossoms_moved, all_moved};

use steps::label::Label;
use steps::{moved_blossom, moved_price};
use tables::tables::Tables;

// A member's price after the step, by its label.
fn moved(label: u8, price: u32) -> u32
    requires { price ≤ 128000 }
    ensures { result ≡ moved label price }
{
    moved_price(label, price) as u32
}

fn move_members(tables: &mut Tables, labels: &[u8])
    requires few { length labels.now ≤ 200 }
    requires low { Low tables.old (length labels.now) }
    ensures { tables.new ≡ members_moved tables.old labels.now }
{
    for (v, label) in labels.iter().enumerate() {
        tables.prices[v] = moved(*label, tables.prices[v]);
    }
}

// Moves the price of one blossom by its root's label.
fn move_blossom(tables: &mut Tables, at: usize, label: u8)
    requires there { at < 100 }
    requires low { label ≢ 0 → (blossom_of (place tables.old at)).price ≤ 128000 }
    ensures { tables.new ≡ place_moved tables.old at (moved_blossom label (blossom_of (place tables.old at)).price) }
{
    let Some(blossom) = tables.blossoms[at] else {
        return;
    };
    if Label::try_from(label) != Ok(Label::Still) {
        tables.reprice(at, moved_blossom(label, blossom.price) as u32);
    }
}

// The labels are those of the roots, by their numbers.
fn move_blossoms(tables: &mut Tables, common: &[u8; 300])
    requires full { length tables.old.blossoms ≡ 100 }
    requires low { LowBlossoms tables.old common.now }
    ensures { tables.new ≡ blossoms_moved tables.old common.now }
{
    for (at, label) in common[200..].iter().enumerate() {
        move_blossom(tables, at, *label);
    }
}

// Makes the step: every price moves by its label, and the floor falls by one.
pub(crate) fn adjust(tables: &mut Tables, labels: &[u8], common: &[u8; 300])
    requires few { length labels.now ≤ 200 }
    requires above { 1 ≤ tables.old.floor }
    requires low { Low tables.old (length labels.now) }
    requires full { length tables.old.blossoms ≡ 100 }
    requires cheap { LowBlossoms tables.old common.now }
    ensures { tables.new ≡ all_moved tables.old labels.now common.now }
{
    move_members(tables, labels);
    move_blossoms(tables, common);
    tables.floor -= 1;
}
