//! Attributes of a list from one on, which abbreviations share (DWARF 5, 7.5.3).

ghost use Rattle.std.specs.Prelude.{◌≡◌, ◌≤◌, List, drop, length, IfNone, IfOk, IfSome};
ghost use Rattle.dw_base.specs.declared.values.Spec.{Spec as SpecOf};
ghost use Rattle.dw_forms.specs.Fixed.{HasNoSize, IsSizeOf};

use dw_base::Spec;
use dw_forms::FixedSize;
use std::alloc::AllocError;
use std::marker::Model;
use std::rc::Rc;

/// Attributes of a list from one on.
#[derive(Drop, Debug)]
pub(crate) struct SharedSpecs {
    /// All attributes.
    list: Rc<Vec<Spec>>,
    /// How many aren't among these.
    from: usize,
    /// How many bytes the values of these take together, where their forms say it.
    size: Option<FixedSize>,
}

impl Model for SharedSpecs {
    ghost Value = { List SpecOf };

    ghost view = { λ s. drop s.from s.list.value.items };

    ghost invariant = { λ s. (s.from ≤ length s.list.value.items) × IfSome s.size (IsSizeOf (drop s.from s.list.value.items)) × IfNone s.size (HasNoSize (drop s.from s.list.value.items)) };
}

impl SharedSpecs {
    /// Those of a list from one on, whose values take so many bytes.
    pub(crate) fn of(
        list: &Rc<Vec<Spec>>,
        from: usize,
        size: Option<FixedSize>,
    ) -> Result<SharedSpecs, AllocError>
        requires inside { from ≤ length list.now.value.items }
        requires size { IfSome size (IsSizeOf (drop from list.now.value.items)) }
        requires none { IfNone size (HasNoSize (drop from list.now.value.items)) }
        ensures value { IfOk result (λ s. s ≡ drop from list.now.value.items) }
    {
        let list = list.clone()?;
        Ok(SharedSpecs { list, from, size })
    }

    /// The same once more.
    pub(crate) fn again(&self) -> Result<SharedSpecs, AllocError>
        ensures value { IfOk result (λ s. s ≡ self.now) }
    {
        SharedSpecs::of(&self.list, self.from, self.size)
    }

    /// The attributes.
    pub(crate) fn as_slice(&self) -> &[Spec]
        ensures value { result.now ≡ self.now }
    {
        let (_, rest) = self.list.as_ref().as_slice().split_at(self.from);
        rest
    }

    /// How many bytes their values take together.
    pub(crate) fn size(&self) -> Option<FixedSize>
        ensures size { IfSome result (IsSizeOf self.now) }
        ensures none { IfNone result (HasNoSize self.now) }
    {
        self.size
    }
}
