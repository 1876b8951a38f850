//! Why a plan wasn't built.

use evp_base::FieldPath;

/// Why a plan wasn't built.
#[derive(Debug, Drop)]
pub enum BuildFault {
    /// The receiver's field at this path has a partner of another class: number, text, record, or
    /// array of one of these.
    Clash(FieldPath),
    /// Memory ran out.
    Memory,
}

impl From<evp_base::Memory> for BuildFault {
    fn from(_memory: evp_base::Memory) -> Self {
        BuildFault::Memory
    }
}
