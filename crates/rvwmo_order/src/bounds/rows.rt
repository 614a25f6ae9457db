//! Bounds, one for each rule: the greatest weight of the operations that must come before another, or more.
ghost use Rattle.std.specs.Prelude.{◌≡◌, ◌↔◌, IsTrue, slice_index_or};
ghost use Rattle.rvwmo_order.specs.Bounds as spec;

use crate::rule::Rule;

/// For each rule a bound on the weights of the operations that must come before an operation by it.
#[derive(Clone, Copy)]
pub(crate) struct Row {
    pub(crate) overlapping_store: usize,
    pub(crate) same_byte_loads: usize,
    pub(crate) atomic_source: usize,
    pub(crate) fence: usize,
    pub(crate) acquire: usize,
    pub(crate) release: usize,
    pub(crate) annotations: usize,
    pub(crate) pair: usize,
    pub(crate) address: usize,
    pub(crate) data_stored: usize,
    pub(crate) control: usize,
    pub(crate) dependent_store: usize,
    pub(crate) dependent_address: usize,
}

/// Nothing is known.
pub(crate) const UNBOUNDED: Row = Row {
    overlapping_store: usize::MAX,
    same_byte_loads: usize::MAX,
    atomic_source: usize::MAX,
    fence: usize::MAX,
    acquire: usize::MAX,
    release: usize::MAX,
    annotations: usize::MAX,
    pair: usize::MAX,
    address: usize::MAX,
    data_stored: usize::MAX,
    control: usize::MAX,
    dependent_store: usize::MAX,
    dependent_address: usize::MAX,
};

impl Row {
    // The greatest bound of any rule.
    fn greatest(&self) -> usize
        ensures { result ≡ spec.greatest_of self.now }
    {
        let by_access = self.overlapping_store.max(self.same_byte_loads);
        let by_source = self.atomic_source.max(self.dependent_store);
        let by_fence = self.fence.max(self.acquire).max(self.release);
        let by_pair = self.annotations.max(self.pair);
        let by_register = self.address.max(self.data_stored);
        let by_branch = self.control.max(self.dependent_address);
        by_access
            .max(by_source)
            .max(by_fence)
            .max(by_pair)
            .max(by_register)
            .max(by_branch)
    }

    pub(crate) fn bound(&self, rule: Rule) -> usize
        ensures { result ≡ spec.bound_of rule self.now }
    {
        match rule {
            Rule::OverlappingStore => self.overlapping_store,
            Rule::SameByteLoads => self.same_byte_loads,
            Rule::AtomicSource => self.atomic_source,
            Rule::Fence => self.fence,
            Rule::Acquire => self.acquire,
            Rule::Release => self.release,
            Rule::Annotations => self.annotations,
            Rule::Pair => self.pair,
            Rule::Address => self.address,
            Rule::Data => self.data_stored,
            Rule::Control => self.control,
            Rule::DependentStore => self.dependent_store,
            Rule::DependentAddress => self.dependent_address,
        }
    }
}

/// The row at a place.
pub(crate) fn row_at(rows: &[Row], position: usize) -> Row
    ensures { result ≡ slice_index_or rows.now position spec.unbounded }
{
    match rows.get(position) {
        Some(row) => *row,
        None => UNBOUNDED,
    }
}

/// The bound by a rule at a place.
pub(crate) fn bound_at(rows: &[Row], position: usize, rule: Rule) -> usize
    ensures { result ≡ spec.bound_of rule (slice_index_or rows.now position spec.unbounded) }
{
    match rows.get(position) {
        Some(row) => row.bound(rule),
        None => usize::MAX,
    }
}

/// Whether the bounds of so many operations leave no room for one behind another that must come before it.
pub(crate) fn are_clear(rows: &[Row], count: usize) -> bool
    ensures { IsTrue result ↔ spec.AreClear rows.now count }
{
    for place in 0..count {
        if row_at(rows, place).greatest() > place + 1 {
            return false;
        }
    }
    true
}
