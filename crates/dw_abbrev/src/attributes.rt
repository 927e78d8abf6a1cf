//! The attributes of an abbreviation, which contracts see as a list (DWARF 5, 7.5.3).
//!
//! The size of an entry's values is found once for its abbreviation, where all forms say it; so is how many attributes stand up to the
//! last that may say something of texts, line tables or macros. Attributes that stand at a place are the rest of others that stand in
//! front of it, and abbreviations can share them.

ghost use Rattle.std.specs.Prelude.{◌≡◌, ◌^◌, ◌≤◌, ℕ, List, Some, drop, length, IfNone, IfSome, IsTrue};
ghost use Rattle.dw_base.specs.UnitHeaders.{is_address_size};
ghost use Rattle.dw_base.specs.declared.values.Spec.{Spec as SpecOf};
ghost use Rattle.dw_abbrev.specs.QuietSpecs.{AllQuiet, HasFront};
ghost use Rattle.dw_abbrev.specs.Spots.{or_shared};
ghost use Rattle.dw_forms.specs.Fixed.{HasNoSize, IsSizeOf, values_size};

use crate::quiet::quiet_from;
use crate::shared_specs::SharedSpecs;
use dw_base::{Params, Spec};
use dw_forms::FixedSize;
use std::alloc::Global;
use std::marker::Model;

/// The attributes of an abbreviation, in order.
#[derive(Drop, Debug)]
pub struct Specs {
    /// Those that it has for itself.
    own: Vec<Spec>,
    /// Those that it shares, if it does; then they are all.
    shared: Option<SharedSpecs>,
    /// How many bytes their values take together, where their forms say it.
    size: Option<FixedSize>,
    /// How many there are up to the last that isn't quiet.
    front: usize,
}

impl Model for Specs {
    ghost Value = { List SpecOf };

    ghost view = { λ s. or_shared s.own.items s.shared };

    ghost invariant = { λ s. IfSome s.size (IsSizeOf (or_shared s.own.items s.shared)) × IfNone s.size (HasNoSize (or_shared s.own.items s.shared)) × (s.front ≤ length (or_shared s.own.items s.shared)) × AllQuiet (drop s.front (or_shared s.own.items s.shared)) };
}

impl Specs {
    /// These attributes.
    pub fn new(specs: Vec<Spec>) -> Specs
        ensures value { result ≡ specs.items }
    {
        let size = FixedSize::of(&specs);
        let front = quiet_from(&specs);
        Specs {
            own: specs,
            shared: None,
            size,
            front,
        }
    }

    /// Attributes that others have, too.
    #[tactic(auto, using(crate::proofs::QuietSpecLaws::from_rules))]
    pub(crate) fn sharing(alloc: Global, specs: SharedSpecs) -> Specs
        ensures value { result ≡ specs }
    {
        let size = specs.size();
        let front = specs.as_slice().len();
        Specs {
            own: Vec::new(alloc),
            shared: Some(specs),
            size,
            front,
        }
    }

    /// How many attributes it has for itself.
    pub(crate) fn own_len(&self) -> usize {
        self.own.len()
    }

    /// The attributes.
    pub fn as_slice(&self) -> &[Spec]
        ensures value { result.now ≡ self.now }
    {
        match &self.shared {
            Some(specs) => specs.as_slice(),
            None => self.own.as_slice(),
        }
    }

    /// The attributes up to the last that may say something of texts, line tables or macros in other entries than a unit's first.
    #[tactic(auto, using(crate::proofs::QuietSpecLaws::front_rules))]
    pub fn front(&self) -> &[Spec]
        ensures front { HasFront self.now result.now }
    {
        let (front, _) = self.as_slice().split_at(self.front);
        front
    }

    /// How many bytes their values take in a unit of these parameters. `None` exactly where a form doesn't
    /// say it, or they are 2^32 or more.
    pub fn values_size(&self, params: &Params) -> Option<u64>
        requires address { IsTrue (is_address_size params.now.address) }
        ensures size { IfSome result (λ n. values_size params.now self.now ≡ Some n) }
        ensures none { IfNone result (IfSome (values_size params.now self.now) (λ n. 2 ^ 32 ≤ n)) }
    {
        match self.size {
            Some(size) => Some(size.bytes_in(params)),
            None => None,
        }
    }

    /// How many attributes there are.
    pub fn len(&self) -> usize
        ensures value { result ≡ length self.now }
    {
        self.as_slice().len()
    }
}
