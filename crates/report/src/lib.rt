// The text of an answer: a plan or a refusal, written into a buffer if it fits.
#![tactic(auto)]

ghost use Rattle.std.specs.Prelude.{◌≡◌, ◌≤◌, length};
ghost use Rattle.report.specs.Texts.{plan_text, refusal_text, written, write_result};

mod draft;
mod writer;

use crate::draft::Draft;
use faults::code::Code;
use faults::fault::Fault;
use faults::layers::SheetFault;
use plan::plan::Plan;

// Room for the text of an answer, in bytes; none is longer.
pub const LONGEST: usize = 16_384;

pub fn write_plan(plan: &Plan, buffer: &mut [u8]) -> Result<usize, SheetFault>
    ensures result { result ≡ write_result (plan_text plan.now) buffer.old }
    ensures bytes { buffer.new ≡ written (plan_text plan.now) buffer.old }
    ensures short { length (plan_text plan.now) ≤ 16384 }
{
    let mut text = Draft::new();
    text.push_form(
        b"plan",
        &[
            plan.shown,
            plan.ground,
            plan.slack,
            u64::from(plan.floor),
            plan.loose as u64,
        ],
    );
    let partners = &plan.partners[..plan.members];
    text.push_pairs(partners);
    text.push_loose(partners);
    text.copy_into(buffer)
}

pub fn write_refusal(fault: Fault, buffer: &mut [u8]) -> Result<usize, SheetFault>
    ensures result { result ≡ write_result (refusal_text fault) buffer.old }
    ensures bytes { buffer.new ≡ written (refusal_text fault) buffer.old }
    ensures short { length (refusal_text fault) ≤ 73 }
{
    let code = Code::from(fault);
    let mut text = Draft::new();
    text.push_form(
        b"refused",
        &[
            u64::from(code.layer),
            u64::from(code.number),
            code.place as u64,
        ],
    );
    text.copy_into(buffer)
}
