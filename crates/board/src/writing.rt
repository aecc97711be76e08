// The write halves of augment, shrink and dissolve, which cannot fail.
ghost use Rattle.std.specs.Prelude.{◌≡◌, ◌<◌};
ghost use Rattle.board.specs.Steps.{mated_anew, ringed_anew};

use tables::tables::{Blossom, Tables};

pub(crate) fn set_mates(tables: &mut Tables, mates: [Option<u16>; 200])
    ensures { tables.new ≡ mated_anew tables.old mates }
{
    tables.mates = mates;
}

// A new blossom at a place, or a place free again; and the roots after that.
pub(crate) fn set_place(tables: &mut Tables, at: usize, blossom: Option<Blossom>, roots: [u16; 200])
    requires { at < 100 }
    ensures { tables.new ≡ ringed_anew tables.old roots at blossom }
{
    tables.blossoms[at] = blossom;
    tables.roots = roots;
}
