/// The first rule that a text breaks as a decimal, in the order in which they are tested.
#[derive(Clone, Copy, Debug, PartialEq, Eq)]
pub enum DecimalFault {
    /// It is something else than a sign, digits and a point.
    Shape,
    /// Its whole part has as many units as the limit, or more.
    Large,
    /// It has a digit other than 0 past the sixth decimal.
    Fine,
    /// It is below 0.
    Negative,
}
