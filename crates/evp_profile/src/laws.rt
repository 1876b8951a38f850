//! The law of layout by profile, which holds for all declarations. The function does nothing.

ghost use Rattle.evp_profile.specs.DeclarationLaws.{LayoutsAreExact};

/// Where declared types have a layout, it is well laid and laid out as C compilers do, its types
/// and fields are the declared ones, and it is the only format of which this holds; where there is
/// a fault, it holds of none.
pub fn layouts_are_exact()
    ensures { LayoutsAreExact }
{}
