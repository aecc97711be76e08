// The tables of a new board: the source is read once, offer by offer.
ghost use Rattle.std.specs.Prelude.{◌≡◌};
ghost use Rattle.board.specs.Fresh.{padded, fresh};
ghost use Rattle.matching.specs.Rows.{row};
ghost use Rattle.matching.specs.Sums.{below};

use matching::row::Row;
use sources::source::Source;
use std::array;
use tables::tables::Tables;

fn row_of<S: Source>(source: &S, offer: usize) -> Row
    ensures { result ≡ row (S.Source.rows source.now) offer }
{
    let (first, second) = source.ends(offer);
    Row {
        first,
        second,
        shown: source.shown(offer),
        ground: source.ground(offer),
    }
}

fn all_rows<S: Source>(source: &S) -> [Row; 4000]
    ensures { result ≡ padded (S.Source.rows source.now) }
{
    // A loop over the offers that are there: with all 4,000 places made by `from_fn`, a small board takes longer to make.
    let mut rows = [Row {
        first: 0,
        second: 0,
        shown: 0,
        ground: 0,
    }; 4000];
    for e in 0..source.offers() {
        rows[e] = row_of(source, e);
    }
    rows
}

// Each member is a root by itself.
fn own_roots() -> [u16; 200]
    ensures { result ≡ below 200 }
{
    array::from_fn(|member| member as u16)
}

pub(crate) fn tables_of<S: Source>(source: &S) -> Tables
    ensures { result ≡ fresh (S.Source.size source.now) (S.Source.rows source.now) (S.Source.highest source.now) }
{
    Tables {
        members: source.members(),
        offers: source.offers(),
        top: source.top(),
        begun: None,
        floor: 0,
        rows: all_rows(source),
        prices: [0; 200],
        mates: [None; 200],
        roots: own_roots(),
        blossoms: [None; 100],
    }
}
