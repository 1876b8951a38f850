//! Laws of formats and their values, which hold for all of them. The functions do nothing.

ghost use Rattle.evp_format.specs.Laws.{ConvertedIsReceivers, ConvertedToItself, EarlierTreesStay};
ghost use Rattle.evp_format.specs.Laws.{ZeroIsOfFormat};

/// What a type is, its nested types resolved, doesn't depend on the types behind it.
pub fn earlier_trees_stay()
    ensures { EarlierTreesStay }
{}

/// A record of defaults is a record of its format: a field that counts elements has the default 0.
pub fn zero_is_of_format()
    ensures { ZeroIsOfFormat }
{}

/// What a value is converted to is of the receiver's format, its packed size is the one that the
/// conversion says, and that is within the limit.
pub fn converted_is_receivers()
    ensures { ConvertedIsReceivers }
{}

/// A value converted to its own format is that value, where the limit allows its packed size.
pub fn converted_to_itself()
    ensures { ConvertedToItself }
{}
