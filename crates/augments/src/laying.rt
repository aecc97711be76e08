// Laying bare, by a loop over a stack of what is still to be laid bare.
ghost use Rattle.std.specs.Prelude.{◌≡◌, ◌+◌, ◌-◌, ◌<◌, ◌≤◌, true, [], ◌∷◌, length, if◌then◌else◌, None, nat_lt, position};
ghost use Rattle.matching.specs.State.{node_holds};
ghost use Rattle.paths.specs.Bare.{ring, by_twos, joined, end_in, piled, Laid};
ghost use Rattle.paths.specs.Augment.{augment_fault, Exchanged};
ghost use Rattle.tables.specs.States.{state};
ghost use Rattle.augments.specs.Laying.{links_in, pile, link_at, turned, opened, Pending};

use stack::stack::Stack;
use tables::node::Node;
use tables::tables::Link;
use tables::view::View;
use walks::across;

// A member to lay bare in a node that holds it.
#[derive(Clone, Copy)]
struct Task {
    node: u16,
    member: u16,
}

// The mates in the making, and what is still to be laid bare.
#[derive(Drop)]
struct Laying<'s> {
    mates: [Option<u16>; 200],
    stack: Stack<'s, Task>,
    ghost full: { length stack.slots.now ≡ 200 },
}

// The ring of a blossom.
fn ring_of<'a>(view: View<'a>, node: u16) -> &'a [Link]
    requires { 200 ≤ node }
    ensures value { links_in result.now ≡ ring (state view.entry.tables.now) node }
    ensures few { length result.now ≤ 200 }
{
    view.ring(node as usize - 200)
}

// The end of an offer that lies in a node.
fn end_in(view: View<'_>, node: u16, offer: u16) -> u16
    ensures { result ≡ end_in (state view.entry.tables.now) node offer }
{
    let row = view.row(offer as usize);
    if view.holds(node as usize, row.first as usize) {
        row.first as u16
    } else {
        row.second as u16
    }
}

fn first_holding(view: View<'_>, ring: &[Link], member: usize) -> Option<usize>
    ensures { result ≡ position (λ l. node_holds (state view.entry.tables.now) l.part member) ring.now }
{
    ring.iter()
        .position(|link| view.holds(link.part as usize, member))
}

// The place of the part of a blossom that holds a member.
fn seat(view: View<'_>, node: u16, member: u16) -> usize
    requires blossom { 200 ≤ node }
    requires held { node_holds (state view.tables.now) node member ≡ true }
    ensures within { result < length (ring (state view.entry.tables.now) node) }
    ensures found { node_holds (state view.entry.tables.now) (link_at (state view.entry.tables.now) node result).part member ≡ true }
{
    // Some part holds it, so 0 does not stand for none.
    first_holding(view, ring_of(view, node), member as usize).unwrap_or(0)
}

// A place past the end of a ring is one from its start.
fn wrap(place: usize, len: usize) -> usize
    ensures { result ≡ (if nat_lt place len then place else place - len) }
{
    if place < len { place } else { place - len }
}

impl Laying<'_> {
    // Puts a task on the stack, where there is room for it.
    fn add(&mut self, node: u16, member: u16)
        requires { self.old.stack.len < 200 }
        ensures mates { self.new.mates ≡ self.old.mates }
        ensures tasks { pile self.new.stack.slots.now self.new.stack.len ≡ (record { node = node; member = member } ∷ pile self.old.stack.slots.now self.old.stack.len) }
        ensures len { self.new.stack.len ≡ self.old.stack.len + 1 }
    {
        // There is room, so nothing is refused.
        let _ = self.stack.push(Task { node, member });
    }

    // Pairs an offer between two nodes, and stacks up that each is to be laid bare where the offer ends.
    fn join(&mut self, view: View<'_>, offer: u16, one: u16, other: u16)
        requires { self.old.stack.len + 2 ≤ 200 }
        ensures mates { self.new.mates ≡ joined (state view.entry.tables.now) (record { offer = offer; one = one; other = other } ∷ []) self.old.mates }
        ensures tasks { pile self.new.stack.slots.now self.new.stack.len ≡ piled (state view.entry.tables.now) (record { offer = offer; one = one; other = other } ∷ []) (pile self.old.stack.slots.now self.old.stack.len) }
        ensures len { self.new.stack.len ≡ self.old.stack.len + 2 }
    {
        let row = view.row(offer as usize);
        self.mates[row.first as usize] = Some(offer);
        self.mates[row.second as usize] = Some(offer);
        self.add(one, end_in(view, one, offer));
        self.add(other, end_in(view, other, offer));
    }

    // Opens a blossom at a member: pairs every second offer of its ring, counted from the part that holds the member, and
    // stacks up what is to be laid bare in the parts. Returns the place of that part.
    fn open(&mut self, view: View<'_>, task: Task) -> usize
        requires blossom { 200 ≤ task.node }
        requires held { node_holds (state view.tables.now) task.node task.member ≡ true }
        requires room { self.old.stack.len + length (ring (state view.tables.now) task.node) ≤ 200 }
        ensures within { result < length (ring (state view.entry.tables.now) task.node) }
        ensures found { node_holds (state view.entry.tables.now) (link_at (state view.entry.tables.now) task.node result).part task.member ≡ true }
        ensures mates { self.new.mates ≡ joined (state view.entry.tables.now) (by_twos (turned (state view.entry.tables.now) task.node result)) self.old.mates }
        ensures tasks { pile self.new.stack.slots.now self.new.stack.len ≡ opened (state view.entry.tables.now) (record { node = task.node; member = task.member }) result (pile self.old.stack.slots.now self.old.stack.len) }
    {
        let at = seat(view, task.node, task.member);
        let ring = ring_of(view, task.node);
        let len = ring.len();
        self.add(ring[at].part, task.member);
        // A ring is odd, so its other parts come two by two, from any place on.
        for i in 0..len / 2 {
            let one = ring[wrap(at + 2 * i + 1, len)];
            let other = ring[wrap(at + 2 * i + 2, len)];
            self.join(view, one.join, one.part, other.part);
        }
        at
    }

    // Does what is on the stack.
    fn drain(&mut self, view: View<'_>)
        requires { ∥ Pending (state view.tables.now) (pile self.old.stack.slots.now self.old.stack.len) ∥₁ }
        ensures { Laid (state view.entry.tables.now) (pile self.old.stack.slots.now self.old.stack.len) self.old.mates self.new.mates }
    {
        while let Some(task) = self.stack.pop() {
            if let Node::Blossom(_) = Node::from(task.node as usize) {
                let _ = self.open(view, task);
            }
        }
    }
}

// The mates after the exchange along the list: every offer at an even position is paired, and the roots on the way are laid bare where it ends.
pub(crate) fn exchange(view: View<'_>, root: usize, offers: &[u16]) -> [Option<u16>; 200]
    requires { augment_fault (state view.tables.now) root offers.now ≡ None }
    ensures { Exchanged (state view.entry.tables.now) root offers.now result }
{
    let mut slots = [Task { node: 0, member: 0 }; 200];
    let mut laying = Laying {
        mates: view.tables.mates,
        stack: Stack::new(&mut slots),
    };
    let mut from = root as u16;
    // A loop: each offer is taken from the root that the one before led to.
    for (i, offer) in offers.iter().enumerate() {
        let to = across(view, *offer as usize, from as usize);
        if i % 2 == 0 {
            laying.join(view, *offer, from, to);
        }
        from = to;
    }
    laying.drain(view);
    laying.mates
}
