//! Why a policy is refused.

ghost use Rattle.std.specs.Prelude.{◌≡◌};
ghost use Rattle.circ_policy.specs.declared.error.PolicyError.TheVariants.{Memory};

use std::alloc::{AllocError, AllocFailed};
use thiserror::Error;

/// Why the bytes of a policy file are refused.
#[derive(Debug, Drop, Error)]
pub enum PolicyError {
    /// The bytes are no TOML.
    #[error("the policy is no TOML")]
    Text,
    /// The first rule that the policy breaks, by the key that it is about: `currency`, `class.A`,
    /// `media.001.days`.
    #[error("the policy breaks the rule of `{key}`")]
    Rule { key: String },
    /// Memory ran out.
    #[error("no memory for the policy")]
    Memory,
}

impl From<AllocError> for PolicyError {
    ghost from_gives = { λ _ e. e ≡ Memory };

    fn from(_e: AllocError) -> PolicyError {
        PolicyError::Memory
    }
}

impl<T: Drop> From<AllocFailed<T>> for PolicyError {
    ghost from_gives = { λ _ e. e ≡ Memory };

    fn from(_e: AllocFailed<T>) -> PolicyError {
        PolicyError::Memory
    }
}
