// The faults of a pattern's text and of its port table, by the names that the program prints.

/// The faults of a text of extended RLE. The answer is the earliest fault of a text, and a fault in
/// the header comes before one in the items.
#[derive(Clone, Copy, Debug, PartialEq, Eq)]
pub enum RleFaultKind {
    /// There is no line for the header, or the header does not begin with `x`.
    NoHeader,
    /// The header has another form, or a number in it is past 18446744073709551615.
    BadHeader,
    /// The header names no rule, or another one than `WireWorld`.
    OtherRule,
    /// No item begins at a byte, or a count is 0, is past 18446744073709551615, or has no tag
    /// directly after it.
    BadItem,
    /// A head, a tail or a conductor lies outside the header's box.
    CellOutside,
    /// The text ends without `!`.
    NoEnd,
}

/// The faults of a port table. The answer is the earliest line at fault, and the first of its
/// faults in this order.
#[derive(Clone, Copy, Debug, PartialEq, Eq)]
pub enum PortFaultKind {
    /// A line of the table has none of the four forms. This includes a version other than 1 and 2,
    /// a version line of version 2 without its number of contexts, and, in version 2, a name in
    /// which a `%` is not followed by two hexadecimal digits, or is followed by those of a line
    /// feed. A period of 0, a number of contexts that is 0 or has no room in the period, and a
    /// number past 18446744073709551615 are bad too.
    BadLine,
    /// The first line of the table is not the version line, or a later line is one.
    BadOrder,
    /// The cell of a line is outside the header's box.
    CellOutside,
    /// An earlier line of the same kind has the same name, or, if it is a net, the same name and
    /// path.
    Twice,
}
