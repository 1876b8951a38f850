//! Laws of descriptions, which hold for all formats and bytes. The functions do nothing.

ghost use Rattle.evp_format.specs.DescriptionLaws.{DescriptionsAreDistinct, FaultsAreExact};

/// No description is a proper prefix of another, and two formats have two.
pub fn descriptions_are_distinct()
    ensures { DescriptionsAreDistinct }
{}

/// Bytes have no fault exactly where they are the description of a well laid format.
pub fn faults_are_exact()
    ensures { FaultsAreExact }
{}
