// From the bytes of a sheet to the bytes of its answer.
#![tactic(auto)]

ghost use Rattle.std.specs.Prelude.{◌≡◌, ℕ, List, length, Result};
ghost use Rattle.report.specs.Texts.{written, write_result};
ghost use Rattle.sheet.specs.Sheets.{Sound, sheet_of, placed};
ghost use Rattle.board.specs.Begins.{begin_fault};
ghost use Rattle.answer.specs.Answers.{new_board, Begins, Answers, Texts};

use board::board::Board;
use coarse::Coarse;
use faults::fault::Fault;
use faults::layers::SheetFault;
use plan::plan::Plan;
use report::{write_plan, write_refusal};
use sheet::reader::{Sheet, read};
use sources::list_source::ListSource;
use sources::offer::Offer;

// The plan of a new board over a sheet's pile, begun with the sheet's k.
fn plan_over(sheet: Sheet, offers: &[Offer]) -> Result<Plan, Fault>
    requires { Sound sheet offers.now }
    ensures { Begins (begin_fault (new_board sheet offers.now) sheet.k) sheet offers.now result }
{
    let list = ListSource::new(sheet.members, offers);
    let mut board = Board::new(Coarse::new(list, sheet.x, sheet.whole));
    board.begin(sheet.k)?;
    Ok(board.release())
}

// The plan that a sheet asks for.
pub fn plan_of(input: &[u8], slots: &mut [Offer]) -> Result<Plan, Fault>
    ensures answer { Answers (sheet_of (length slots.old) input.now) result }
    ensures slots { slots.new ≡ placed (sheet_of (length slots.old) input.now).taken slots.old }
{
    let sheet = read(input, slots)?;
    let count = sheet.offers;
    plan_over(sheet, &slots[..count])
}

// Answers a sheet: writes its plan, or its refusal, into a buffer.
pub fn answer(input: &[u8], slots: &mut [Offer], buffer: &mut [u8]) -> Result<usize, SheetFault>
    ensures text { Texts (sheet_of (length slots.old) input.now) buffer.old result buffer.new }
    ensures slots { slots.new ≡ placed (sheet_of (length slots.old) input.now).taken slots.old }
{
    match plan_of(input, slots) {
        Ok(plan) => write_plan(&plan, buffer),
        Err(fault) => write_refusal(fault, buffer),
    }
}
