//! The slots of the working room of a choice.

/// Working room for one child that can be satisfied and dissatisfied: how much more its satisfaction takes
/// than its dissatisfaction, in each number, and which child it is. Slots are ordered by the first
/// difference and then by the place. Users keep other numbers in it too.
#[derive(Clone, Copy, Debug, PartialEq, Eq, PartialOrd, Ord)]
pub struct Slot {
    /// The difference in the first number.
    pub first: i64,
    /// The child's place among all children, from 0.
    pub place: u32,
    /// The difference in the second number.
    pub second: i64,
    /// The difference in the third number.
    pub third: i64,
}
