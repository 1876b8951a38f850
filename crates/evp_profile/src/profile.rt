//! The machines that formats are laid out for.

ghost use Rattle.std.specs.Prelude.{◌≡◌};
ghost use Rattle.evp_profile.specs.Profile.{byte_order, pointer_size, greatest_alignment};

use evp_base::Order;

/// A machine and its C compiler: the order of a number's bytes, the size of a pointer, and the
/// greatest alignment of a type.
#[derive(Clone, Copy, Debug, PartialEq, Eq)]
pub enum Profile {
    /// Little endian, pointers of 8 bytes, alignments up to 8, as x86-64.
    Le64,
    /// Little endian, pointers of 4 bytes, alignments up to 4, as i386.
    Le32,
    /// Big endian, pointers of 8 bytes, alignments up to 8, as s390x.
    Be64,
    /// Big endian, pointers of 4 bytes, alignments up to 8, as 32-bit PowerPC.
    Be32,
}

impl Profile {
    /// The order of a number's bytes.
    pub fn byte_order(self) -> Order
        ensures { result ≡ byte_order self }
    {
        match self {
            Profile::Le64 | Profile::Le32 => Order::Little,
            Profile::Be64 | Profile::Be32 => Order::Big,
        }
    }

    /// Bytes of a pointer: 4 or 8.
    pub fn pointer_size(self) -> u8
        ensures { result ≡ pointer_size self }
    {
        match self {
            Profile::Le64 | Profile::Be64 => 8,
            Profile::Le32 | Profile::Be32 => 4,
        }
    }

    /// The greatest alignment of a type, in bytes: 4 or 8.
    pub fn greatest_alignment(self) -> u8
        ensures { result ≡ greatest_alignment self }
    {
        match self {
            Profile::Le32 => 4,
            Profile::Le64 | Profile::Be64 | Profile::Be32 => 8,
        }
    }
}
