//! The law of decimal numbers.

ghost use Rattle.text.specs.Laws.{NumbersAreDecimals};

/// The words that are read as numbers are what `Display` writes of them.
pub fn numbers_are_decimals()
    ensures { NumbersAreDecimals }
{}
