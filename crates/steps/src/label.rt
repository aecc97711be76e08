// The label of a member or a root, by its number: 0 none, 1 out, 2 in.
ghost use Rattle.std.specs.Prelude.{◌≡◌};
ghost use Rattle.steps.specs.Kinds.{label_named};

#[derive(Clone, Copy, PartialEq, Eq, Debug)]
pub enum Label {
    Still,
    Out,
    In,
}

// No label has this number.
#[derive(Clone, Copy, PartialEq, Eq, Debug)]
pub struct NoLabel {
    pub number: u8,
}

impl TryFrom<u8> for Label {
    type Error = NoLabel;

    ghost try_from_gives = { λ n r. r ≡ label_named n };

    fn try_from(number: u8) -> Result<Label, NoLabel> {
        match number {
            0 => Ok(Label::Still),
            1 => Ok(Label::Out),
            2 => Ok(Label::In),
            _ => Err(NoLabel { number }),
        }
    }
}
