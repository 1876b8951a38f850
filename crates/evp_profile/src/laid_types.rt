//! The types that are laid out so far for a machine.

ghost use Rattle.std.specs.Prelude.{◌≡◌, ◌<◌, ◌≤◌, ◌++◌, ◌∷◌, [], length, map, IfOk, IfErr};
ghost use Rattle.evp_format.specs.declared.layout_fault.LayoutFault.TheVariants.{Memory};
ghost use Rattle.evp_format.specs.Layout.{layout_with};
ghost use Rattle.evp_format.specs.SoFar.{so_far, AreLaid, MayFollow};
ghost use Rattle.evp_format.specs.Tree.{trees};
ghost use Rattle.evp_profile.specs.Alignment.{alignment};
ghost use Rattle.evp_profile.specs.LaidSoFar.{laid_so_far};
ghost use Rattle.evp_profile.specs.Profile.{byte_order, pointer_size};

use crate::Profile;
use crate::alignment::fields_alignment;
use evp_format::{Format, LayoutFault, RecordType, TypesSoFar};
use std::alloc::Global;
use std::marker::Model;

/// The most types of a format.
const MOST: usize = 64;

/// The types that are laid out so far for a machine, and how each is aligned.
#[derive(Drop)]
pub(crate) struct LaidTypes {
    profile: Profile,
    types: TypesSoFar,
    // each type's alignment, then zeros
    alignments: [u8; MOST],
}

impl Model for LaidTypes {
    ghost use Rattle.evp_profile.specs.LaidSoFar.{LaidSoFar, AreAligned};

    ghost Value = { LaidSoFar };

    ghost view = { λ l. record { profile = l.profile; types = l.types.types } };

    ghost invariant = { λ l. AreAligned l.profile l.types l.alignments };
}

impl LaidTypes {
    /// No type, for this machine. Takes no memory.
    pub(crate) fn new(alloc: Global, profile: Profile) -> Self
        ensures { result ≡ laid_so_far profile [] }
    {
        LaidTypes {
            profile,
            types: TypesSoFar::new(alloc, profile.pointer_size()),
            alignments: [0; MOST],
        }
    }

    /// The machine.
    pub(crate) fn profile(&self) -> Profile
        ensures { result ≡ self.now.profile }
    {
        self.profile
    }

    /// The types, for what is asked of the next one.
    pub(crate) fn so_far(&self) -> &TypesSoFar
        ensures value { result.now ≡ so_far (pointer_size self.now.profile) self.now.types }
        ensures laid { AreLaid (pointer_size self.now.profile) self.now.types }
    {
        &self.types
    }

    /// Each type's alignment.
    pub(crate) fn alignments(&self) -> &[u8]
        ensures { result.now ≡ map (alignment self.now.profile) (trees self.now.types) }
    {
        &self.alignments[..usize::from(self.types.number())]
    }

    /// Puts a type behind the others, or `Memory`.
    pub(crate) fn push(&mut self, record_type: RecordType) -> Result<(), LayoutFault>
        requires room { length self.old.types < 64 }
        requires follows { MayFollow (pointer_size self.old.profile) self.old.types record_type }
        ensures pushed { IfOk result (λ _. self.new
            ≡ laid_so_far self.old.profile (self.old.types ++ record_type ∷ [])) }
        ensures kept { IfErr result (λ fault. fault ≡ Memory) }
    {
        let number = usize::from(self.types.number());
        let alignment = fields_alignment(self, record_type.fields.as_slice());
        self.types.push(record_type)?;
        self.alignments[number] = alignment;
        Ok(())
    }

    /// The format of these types.
    pub(crate) fn into_format(self, alloc: Global) -> Result<Format, evp_base::Memory>
        requires { 1 ≤ length self.types }
        ensures { IfOk result (λ format. format ≡ layout_with (byte_order self.profile)
            (pointer_size self.profile) self.types) }
    {
        self.types.into_format(alloc, self.profile.byte_order())
    }
}
