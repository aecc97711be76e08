// The reader takes a sheet line by line: one frame, one coarse, then the offers.
ghost use Rattle.std.specs.Prelude.{◌≡◌, ◌+◌, ◌≤◌, length, is_ok, IfOk, if◌then◌else◌};
ghost use Rattle.faults.specs.Checks.{judged};
ghost use Rattle.sheet.specs.Sheets.{room_fault, length_fault, finish, sheet_of, placed, Sound};
ghost use Rattle.sheet.specs.Counts.{count};

use faults::fault::Fault;
use faults::layers::{SheetFault, SourceFault};
use forms::form::{Form, read_form};
use sources::list_source;
use sources::list_source::MOST_OFFERS;
use sources::offer::Offer;

// The longest sheet, in bytes.
pub const LONGEST: usize = 65_535;

// What a sheet says, but for its offers, which are in the slots.
#[derive(Clone, Copy, PartialEq, Eq, Debug)]
pub struct Sheet {
    pub members: u32,
    pub k: u32,
    pub x: u32,
    pub whole: u32,
    pub offers: usize,
}

// What comes next; the sheet of a body counts the offers so far.
#[derive(Clone, Copy, PartialEq, Eq, Debug)]
enum State {
    Frame,
    Coarse { members: u32, k: u32 },
    Body(Sheet),
}

#[derive(Drop)]
struct Reader<'a> {
    slots: &'a mut [Offer],
    line: usize,
    state: State,
    ghost within: { count state ≤ length slots.now },
}

impl Reader<'_> {
    ghost use Rattle.sheet.specs.Readers.{slots_in, most_at, stage_at, accepted, judged_line, outcome_at, Lent, Moves};

    // Whether there is room for one offer more.
    fn check_room(&self, used: usize) -> Result<(), SourceFault>
        ensures { result ≡ judged (room_fault (most_at self.now) used) }
    {
        let most = MOST_OFFERS.min(self.slots.len());
        if used >= most {
            return Err(SourceFault::TooManyOffers(most));
        }
        Ok(())
    }

    // Takes a form, if it may come here.
    fn accept(&mut self, form: Form) -> Result<(), Fault>
        ensures step { Moves self.old (accepted self.old form) result self.new }
        ensures line { self.new.line ≡ self.old.line }
    {
        self.state = match (self.state, form) {
            (State::Frame, Form::Frame { members, k }) => {
                list_source::check_size(members)?;
                State::Coarse { members, k }
            }
            (State::Coarse { members, k }, Form::Coarse { x, whole }) => {
                coarse::check(x, whole)?;
                State::Body(Sheet {
                    members,
                    k,
                    x,
                    whole,
                    offers: 0,
                })
            }
            (State::Body(sheet), Form::Offer(offer)) => {
                self.check_room(sheet.offers)?;
                self.slots[sheet.offers] = offer;
                State::Body(Sheet {
                    offers: sheet.offers + 1,
                    ..sheet
                })
            }
            _ => return Err(SheetFault::BadForm(self.line).into()),
        };
        Ok(())
    }

    // Takes a line with its line feed.
    fn take_line(&mut self, text: &[u8]) -> Result<(), Fault>
        requires { self.old.line ≤ 65536 }
        ensures step { Moves self.old (judged_line self.old text.now) result self.new }
        ensures line { self.new.line ≡ (if is_ok result then self.old.line + 1 else self.old.line) }
    {
        let form = read_form(text).ok_or(SheetFault::BadForm(self.line))?;
        self.accept(form)?;
        self.line += 1;
        Ok(())
    }

    // What is read, where no line is left.
    fn finish(&self) -> Result<Sheet, Fault>
        ensures { result ≡ finish self.now.line (stage_at self.now) }
    {
        let State::Body(sheet) = self.state else {
            return Err(SheetFault::BadForm(self.line).into());
        };
        list_source::check(sheet.members, &self.slots[..sheet.offers])?;
        Ok(sheet)
    }

    // Takes the lines of a text, to its end.
    fn read_lines(&mut self, text: &[u8]) -> Result<Sheet, Fault>
        requires { self.old.line + length text.now ≤ 65536 }
        ensures answer { result ≡ (outcome_at self.old text.now).answer }
        ensures lent { Lent self.old self.new }
        ensures taken { slots_in self.new ≡ placed (outcome_at self.old text.now).taken (slots_in self.old) }
    {
        for line in text.split_inclusive(|b| *b == b'\n') {
            self.take_line(line)?;
        }
        self.finish()
    }
}

fn check_length(input: &[u8]) -> Result<(), SheetFault>
    ensures { result ≡ judged (length_fault input.now) }
{
    if input.len() > LONGEST {
        return Err(SheetFault::TooLong);
    }
    Ok(())
}

// Reads a sheet. Its offers go into the slots, from the front.
pub fn read(input: &[u8], slots: &mut [Offer]) -> Result<Sheet, Fault>
    ensures answer { result ≡ (sheet_of (length slots.old) input.now).answer }
    ensures sound { IfOk result (λ s. Sound s (sheet_of (length slots.old) input.now).taken) }
    ensures taken { slots.new ≡ placed (sheet_of (length slots.old) input.now).taken slots.old }
{
    check_length(input)?;
    let mut reader = Reader {
        slots,
        line: 1,
        state: State::Frame,
    };
    reader.read_lines(input)
}
