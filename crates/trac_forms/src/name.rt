//! The names by which a store finds its forms.
ghost use Rattle.std.specs.Prelude.{◌≡◌, IfOk, IsOkUnless};
ghost use Rattle.std.proofs.Common.{ap};
ghost use Rattle.std.specs.Cmp.{partial_equiv_from_equiv};
ghost use Rattle.std.specs.Cmp.Lexicographic.{bytes_decides, nat_list_eq_equiv};
ghost use Rattle.std.specs.Hash as fed;
ghost use Rattle.std.specs.Str.{bytes_eq};

use crate::error::FormError;
use indexmap::Equivalent;
use std::alloc::Allocator;
use std::hash::{Hash, Hasher};
use std::marker::Model;

/// A name that a store knows. It is seen as its bytes.
#[derive(Drop)]
pub(crate) struct Name<A: Allocator + Copy> {
    bytes: Vec<u8, A>,
}

impl<A: Allocator + Copy> Model for Name<A> {
    ghost use Rattle.std.specs.Prelude.{ℕ, List};
    ghost use Rattle.trac_rules.specs.Codes.{text_code};

    ghost Value = { List ℕ };

    ghost coded = { text_code };

    ghost view = { λ name. name.bytes.items };
}

impl<A: Allocator + Copy> Name<A> {
    /// This name. Refused with `Memory` if the allocator refuses.
    pub(crate) fn new(alloc: A, bytes: &[u8]) -> Result<Self, FormError>
        ensures name { IfOk result (λ name. name ≡ bytes.now) }
        ensures err { IsOkUnless result FormError.Memory }
    {
        let bytes = Vec::from_slice(alloc, bytes)?;
        Ok(Name { bytes })
    }

    /// Its bytes.
    pub(crate) fn as_slice(&self) -> &[u8]
        ensures { result.now ≡ self.now }
    {
        self.bytes.as_slice()
    }
}

impl<A: Allocator + Copy> PartialEq for Name<A> {
    ghost eq = { λ x y. bytes_eq x y };

    ghost laws = { partial_equiv_from_equiv nat_list_eq_equiv };

    fn eq(&self, other: &Self) -> bool {
        self.as_slice() == other.as_slice()
    }
}

impl<A: Allocator + Copy> Eq for Name<A> {
    ghost laws = { nat_list_eq_equiv };
}

impl<A: Allocator + Copy> Hash for Name<A> {
    ghost hash_input = { λ name. fed.slice fed.u8 name };

    ghost respects_eq = { λ x y h. ap (λ bytes. fed.slice fed.u8 bytes) ((bytes_decides x y).0 h) };

    fn hash<H: Hasher>(&self, state: &mut H) {
        self.as_slice().hash(state);
    }
}

// A name is looked up by its bytes.
impl<A: Allocator + Copy> Equivalent<Name<A>> for &[u8] {
    ghost equivalent = { λ q name. bytes_eq q.now name };

    ghost respects_hash = { λ q name h. ap (λ bytes. fed.slice fed.u8 bytes) ((bytes_decides q.now name).0 h) };

    ghost respects_eq = { λ q x y. nat_list_eq_equiv.congr q.now x y };

    fn equivalent(&self, key: &Name<A>) -> bool {
        *self == key.as_slice()
    }
}
