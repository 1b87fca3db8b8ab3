/// The order in which the two bytes of a word are in a code file.
///
/// One order holds for all words of a file. BIG operands have one form in either order.
/// Source: UCSD Pascal II.0 manual, code file format.
#[derive(Clone, Copy, Debug, PartialEq, Eq)]
pub enum Order {
    /// The low byte comes first.
    Little,
    /// The high byte comes first.
    Big,
}
