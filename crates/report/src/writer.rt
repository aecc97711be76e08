// How a text grows. What does not fit any more is left out, and no answer is that long; a formatter would stop there instead,
// so this is no Display.
ghost use Rattle.std.specs.Prelude.{◌≡◌, ◌+◌, ◌*◌, ◌≤◌, [], ◌∷◌, ◌++◌, length};
ghost use Rattle.report.specs.Drafts.{held, capped};
ghost use Rattle.tokens.specs.Numerals.{numeral_of};
ghost use Rattle.report.specs.Texts.{spaced, form, pair_line, pair_told, loose_told, told_from, written, write_result};

use crate::draft::Draft;
use arrayvec::ArrayVec;
use faults::layers::SheetFault;
use itoa::Buffer;

impl Draft {
    pub fn new() -> Draft
        ensures { held result ≡ [] }
    {
        Draft {
            text: ArrayVec::new(),
        }
    }

    pub fn push(&mut self, piece: &[u8])
        ensures { held self.new ≡ capped (held self.old ++ piece.now) }
    {
        let room = self.text.remaining_capacity();
        let fitting = &piece[..piece.len().min(room)];
        let _fits = self.text.try_extend_from_slice(fitting);
    }

    // A number in decimal.
    pub fn push_number(&mut self, number: u64)
        ensures { held self.new ≡ capped (held self.old ++ numeral_of number) }
    {
        self.push(Buffer::new().format(number).as_bytes());
    }

    // Numbers, each after a space.
    fn push_spaced(&mut self, numbers: &[u64])
        ensures { held self.new ≡ capped (held self.old ++ spaced numbers.now) }
    {
        for number in numbers {
            self.push(b" ");
            self.push_number(*number);
        }
    }

    // A line of a name and numbers.
    pub fn push_form(&mut self, name: &[u8], numbers: &[u64])
        ensures text { held self.new ≡ capped (held self.old ++ form name.now numbers.now) }
        ensures short { length (form name.now numbers.now) ≤ length name.now + 21 * length numbers.now + 3 }
    {
        self.push(b"(");
        self.push(name);
        self.push_spaced(numbers);
        self.push(b")\n");
    }

    fn push_pair(&mut self, first: u64, second: u64)
        ensures text { held self.new ≡ capped (held self.old ++ pair_line first second) }
        ensures short { length (pair_line first second) ≤ 51 }
    {
        self.push(b"(pair (");
        self.push_number(first);
        self.push(b" ");
        self.push_number(second);
        self.push(b"))\n");
    }

    // The pairs, each at the lower of its members.
    pub fn push_pairs(&mut self, partners: &[Option<u32>])
        ensures text { held self.new ≡ capped (held self.old ++ told_from pair_told 0 partners.now) }
        ensures short { length (told_from pair_told 0 partners.now) ≤ 51 * length partners.now }
    {
        for (member, partner) in partners.iter().enumerate() {
            if let Some(other) = partner
                && member < *other as usize
            {
                self.push_pair(member as u64, u64::from(*other));
            }
        }
    }

    // The members that have no partner.
    pub fn push_loose(&mut self, partners: &[Option<u32>])
        ensures text { held self.new ≡ capped (held self.old ++ told_from loose_told 0 partners.now) }
        ensures short { length (told_from loose_told 0 partners.now) ≤ 29 * length partners.now }
    {
        for (member, partner) in partners.iter().enumerate() {
            if partner.is_none() {
                self.push_form(b"loose", &[member as u64]);
            }
        }
    }

    fn as_slice(&self) -> &[u8]
        ensures { result.now ≡ held self.now }
    {
        self.text.as_slice()
    }

    // Copies the text to the front of the buffer, unless it is longer.
    pub fn copy_into(&self, buffer: &mut [u8]) -> Result<usize, SheetFault>
        ensures result { result ≡ write_result (held self.now) buffer.old }
        ensures bytes { buffer.new ≡ written (held self.now) buffer.old }
    {
        let text = self.as_slice();
        if text.len() > buffer.len() {
            return Err(SheetFault::ShortBuffer(text.len()));
        }
        buffer[..text.len()].copy_from_slice(text);
        Ok(text.len())
    }
}
