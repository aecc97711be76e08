// When two plans are the same: so many members, and each has the same partner.
ghost use Rattle.std.specs.Prelude.{◌≡◌, Decides};
ghost use Rattle.std.specs.Cmp.{partial_equiv_from_equiv};
ghost use Rattle.std.specs.Cmp.Rules.{comparing};
ghost use Rattle.std.proofs.Common.{rules};
ghost use Rattle.plan.specs.Plans.{Same, is_same, SameIsTested};

use crate::plan::Plan;

// Not derived: what the array holds past the last member does not count.
impl PartialEq for Plan {
    ghost eq = { is_same };

    ghost laws = { partial_equiv_from_equiv (Prim.search (comparing, rules)) };

    fn eq(&self, other: &Plan) -> bool
        ensures value { result ≡ is_same self.now other.now }
        ensures decided { Decides result (Same self.now other.now) }
        ensures tested { SameIsTested }
    {
        self.members == other.members
            && &self.partners[..self.members] == &other.partners[..other.members]
    }
}

impl Eq for Plan {
    ghost laws = { Prim.search (comparing, rules) };
}
