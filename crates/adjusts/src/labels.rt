// The labels of an adjust, by the roots of their members.
ghost use Rattle.std.specs.Prelude.{◌≡◌, not, ◌||◌, ◌&&◌, length, ◌==◌, nat_lt};
ghost use Rattle.faults.specs.Checks.{judged};
ghost use Rattle.steps.specs.Adjust.{label_fault};
ghost use Rattle.tables.specs.States.{state};
ghost use Rattle.adjusts.specs.Labels.{RootLabels, Mislabelled};

use faults::layers::BoardFault;
use steps::label::Label;
use tables::view::View;

// A label for each member, by numbers as they come: one over 2 is told by its root, so they are compared before they are read.
#[derive(Clone, Copy)]
pub(crate) struct Labelling<'a> {
    pub view: View<'a>,
    pub labels: &'a [u8],
    ghost all: { length labels.now ≡ view.tables.now.members },
}

// Whether a member's label is wrong: unlike its root's, over 2, or not out though the member is loose.
fn is_wrong(label: u8, common: u8, loose: bool) -> bool
    ensures { result ≡ (not (label == common) || (nat_lt 2 label || (loose && not (label == 1)))) }
{
    label != common
        || match Label::try_from(label) {
            Ok(Label::Out) => false,
            Ok(Label::Still) => loose,
            Ok(Label::In) => loose,
            Err(_) => true,
        }
}

impl Labelling<'_> {
    // The label of each root: that of its lowest member, and 0 at a node that is no root.
    pub(crate) fn root_labels(self) -> [u8; 300]
        ensures { RootLabels (state self.entry.view.tables.now) self.entry.labels.now result }
    {
        // By number and downwards: the lowest member writes last, and its root stands in another table.
        let mut root_labels = [0; 300];
        for v in (0..self.labels.len()).rev() {
            root_labels[self.view.tables.roots[v] as usize] = self.labels[v];
        }
        root_labels
    }

    // The nodes that are roots with a wrong label: over 2, unlike in one root, or not out with a loose member.
    fn mislabelled(self, common: &[u8; 300]) -> [bool; 300]
        ensures { Mislabelled (state self.entry.view.tables.now) self.entry.labels.now common.now result }
    {
        let tables = self.view.tables;
        let mut bad = [false; 300];
        for (v, label) in self.labels.iter().enumerate() {
            let root = tables.roots[v] as usize;
            if is_wrong(*label, common[root], tables.mates[v].is_none()) {
                bad[root] = true;
            }
        }
        bad
    }

    // Whether each root has one label, and a right one.
    fn check(self) -> Result<(), BoardFault>
        ensures { result ≡ judged (label_fault (state self.entry.view.tables.now) self.entry.labels.now) }
    {
        let tables = self.view.tables;
        let bad = self.mislabelled(&self.root_labels());
        // By number, up to the first offender.
        for v in 0..tables.members {
            if bad[tables.roots[v] as usize] {
                return Err(BoardFault::BadLabels(v));
            }
        }
        Ok(())
    }
}

pub(crate) fn check_labels(view: View<'_>, labels: &[u8]) -> Result<(), BoardFault>
    ensures { result ≡ judged (label_fault (state view.entry.tables.now) labels.now) }
{
    if labels.len() != view.tables.members {
        return Err(BoardFault::BadLabels(labels.len()));
    }
    Labelling { view, labels }.check()
}
