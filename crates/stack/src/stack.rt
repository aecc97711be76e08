// A stack over slots that are handed in, with how many of them are in use: whoever makes one says how much room it has,
// and nothing here wants memory.
ghost use Rattle.std.specs.Prelude.{◌≡◌, ◌≤◌, cond, [], ◌∷◌, length, nat_lt};
ghost use Rattle.faults.specs.Checks.{judged, unless};
ghost use Rattle.faults.specs.declared.layers.StackFault.TheVariants.{Full};
ghost use Rattle.stack.specs.Items.{items, top, below};

use faults::layers::StackFault;

#[derive(Drop)]
pub struct Stack<'a, T> {
    slots: &'a mut [T],
    len: usize,
    ghost fits: { len ≤ length slots.now },
}

impl<'a, T: Copy> Stack<'a, T> {
    // It holds nothing.
    pub fn new(slots: &'a mut [T]) -> Stack<'a, T>
        ensures items { items result.slots.now result.len ≡ [] }
        ensures len { result.len ≡ 0 }
        ensures slots { result.slots.now ≡ slots.old }
    {
        Stack { slots, len: 0 }
    }

    // How many items it holds.
    pub fn len(&self) -> usize
        ensures field { result ≡ self.now.len }
        ensures value { result ≡ length (items self.now.slots.now self.now.len) }
    {
        // Each slot in use holds one.
        self.len
    }

    // Puts an item on top, or changes nothing where every slot is taken.
    pub fn push(&mut self, item: T) -> Result<(), StackFault>
        ensures value { result ≡ judged (unless (nat_lt self.old.len (length self.old.slots.now)) (Full (length self.old.slots.now))) }
        ensures items { items self.new.slots.now self.new.len ≡ cond (nat_lt self.old.len (length self.old.slots.now))
            (item ∷ items self.old.slots.now self.old.len)
            (items self.old.slots.now self.old.len) }
        ensures count { length self.new.slots.now ≡ length self.old.slots.now }
        ensures refused { length self.old.slots.now ≤ self.old.len → (self.new.slots.now ≡ self.old.slots.now) × (self.new.len ≡ self.old.len) }
    {
        if self.len >= self.slots.len() {
            return Err(StackFault::Full(self.slots.len()));
        }
        self.slots[self.len] = item;
        self.len += 1;
        Ok(())
    }

    // Takes the top item off, if there is one.
    pub fn pop(&mut self) -> Option<T>
        ensures value { result ≡ top (items self.old.slots.now self.old.len) }
        ensures items { items self.new.slots.now self.new.len ≡ below (items self.old.slots.now self.old.len) }
        ensures slots { self.new.slots.now ≡ self.old.slots.now }
    {
        self.len = self.len.checked_sub(1)?;
        Some(self.slots[self.len])
    }
}
