// A text in the making.
use crate::LONGEST;
use arrayvec::ArrayVec;

#[derive(Drop)]
pub struct Draft {
    pub text: ArrayVec<u8, LONGEST>,
}
