/// Why a text is refused as a number or as a voltage.
#[derive(Clone, Copy, Debug, PartialEq, Eq)]
pub enum NumFault {
    /// The text is no number.
    Shape,
    /// The number is too large: its magnitude is 10 to the power 12 or more, or a voltage is more than 1000 volts.
    TooLarge,
    /// The voltage is no whole number of millivolts.
    TooFine,
}
