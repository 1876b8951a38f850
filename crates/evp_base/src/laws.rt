//! Laws of numbers and their bytes, which hold for all values. The functions do nothing.

ghost use Rattle.evp_base.specs.Laws.{DigitsReadBack, NumberDigitsBack, NumbersAreInRange};
ghost use Rattle.evp_base.specs.Laws.{DigitsAreBytes, LowFirstTwice, WordsAreMagnitudes};
ghost use Rattle.evp_base.specs.Laws.{WordsAreDigits};

/// Reading the bytes of a number in the range of its kind and size gives the number back, in
/// either order.
pub fn digits_read_back()
    ensures { DigitsReadBack }
{}

/// Writing the number that some bytes are gives the bytes back, for each kind but boolean.
pub fn number_digits_back()
    ensures { NumberDigitsBack }
{}

/// The number that some bytes are is in the range of its kind and size.
pub fn numbers_are_in_range()
    ensures { NumbersAreInRange }
{}

/// A number has as many digits as asked for, each a byte.
pub fn digits_are_bytes()
    ensures { DigitsAreBytes }
{}

/// To turn bytes to the lowest first, and back, changes nothing.
pub fn low_first_twice()
    ensures { LowFirstTwice }
{}

/// The word that `byteorder` reads from some bytes is their unsigned number, in either order.
pub fn words_are_magnitudes()
    ensures { WordsAreMagnitudes }
{}

/// The bytes that `byteorder` writes of a word are its digits, in either order.
pub fn words_are_digits()
    ensures { WordsAreDigits }
{}
