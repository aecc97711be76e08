// The questions on blossoms, read off the tables.
ghost use Rattle.std.specs.Prelude.{◌≡◌, Some};
ghost use Rattle.std.specs.Option.{option_map};
ghost use Rattle.tables.specs.States.{blossom_of, state};
ghost use Rattle.board.specs.Blossoms.{of_blossom, link_of, entry_of};

use tables::node::Node;
use tables::tables::Blossom;
use tables::view::View;

// The blossom that a node is.
fn blossom_at<'a>(view: View<'a>, node: usize) -> Option<&'a Blossom>
    ensures { option_map (λ b. b.now) result ≡ entry_of view.entry.tables.now node }
{
    match Node::from(node) {
        Node::Blossom(at) => view.blossom(at),
        Node::Member(_) => None,
    }
}

pub(crate) fn blossom_price(view: View<'_>, node: usize) -> Option<u32>
    ensures { result ≡ of_blossom (state view.entry.tables.now) node (λ b. Some b.price) }
{
    Some(blossom_at(view, node)?.price)
}

pub(crate) fn link(view: View<'_>, node: usize, at: usize) -> Option<(u16, u16)>
    ensures { result ≡ of_blossom (state view.entry.tables.now) node (link_of at) }
{
    let link = blossom_at(view, node)?.ring().get(at)?;
    Some((link.part, link.join))
}
