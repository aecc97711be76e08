// Begin on the tables, in two halves: a check that only reads, and a write that cannot fail.
ghost use Rattle.std.specs.Prelude.{◌≡◌, ◌≤◌};
ghost use Rattle.faults.specs.Checks.{judged};
ghost use Rattle.board.specs.Begins.{begin_fault, begun_with};

use faults::layers::BoardFault;
use tables::tables::Tables;

pub(crate) fn check_begin(tables: &Tables, k: u32) -> Result<(), BoardFault>
    ensures { result ≡ judged (begin_fault tables.now k) }
{
    if tables.begun.is_some() {
        return Err(BoardFault::AlreadyBegun);
    }
    if k < 1 || k > 32 {
        return Err(BoardFault::BadK(k));
    }
    if tables.top > 1000 {
        return Err(BoardFault::HighTop(tables.top));
    }
    Ok(())
}

pub(crate) fn begin(tables: &mut Tables, k: u32)
    requires few { k ≤ 32 }
    requires low { tables.old.top ≤ 1000 }
    ensures { tables.new ≡ begun_with tables.old k }
{
    let floor = 2 * k * tables.top;
    tables.begun = Some(k);
    tables.floor = floor;
    tables.prices = [floor; 200];
}
