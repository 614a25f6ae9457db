//! Permissions of a copy, and how messages name their changes (TileLink 1.8.1, "Permissions transitions").
ghost use Rattle.std.specs.Prelude.{◌≡◌, ◌≢◌};
ghost use Rattle.tl_types.specs.Permission.{granted_for, held_before, left_by, named_by};
ghost use Rattle.tl_types.specs.Shrink.{shrunk_by};

/// What a copy of a line allows: Nothing, reading (Branch), or reading and writing (Trunk; no client stands
/// below a cache here, so that it is TileLink's tip).
#[derive(Clone, Copy, Debug, PartialEq, Eq)]
pub enum Perm {
    Nothing,
    Branch,
    Trunk,
}

/// Which permissions an Acquire asks for, from what the cache has.
#[derive(Clone, Copy, Debug, PartialEq, Eq)]
pub enum Grow {
    NtoB,
    NtoT,
    BtoT,
}

impl Grow {
    /// The Cap of the Grant that answers the Acquire.
    pub fn granted(self) -> Cap
        ensures { result ≡ granted_for self }
    {
        match self {
            Grow::NtoB => Cap::ToB,
            Grow::NtoT | Grow::BtoT => Cap::ToT,
        }
    }
}

/// The most that a copy may have after a Probe, or has after a Grant.
#[derive(Clone, Copy, Debug, PartialEq, Eq)]
pub enum Cap {
    ToT,
    ToB,
    ToN,
}

impl Cap {
    /// The permission that it names.
    pub fn perm(self) -> Perm
        ensures { result ≡ named_by self }
    {
        match self {
            Cap::ToT => Perm::Trunk,
            Cap::ToB => Perm::Branch,
            Cap::ToN => Perm::Nothing,
        }
    }
}

/// What a copy gave up (`TtoB`, `TtoN`, `BtoN`), or that it gave up nothing.
#[derive(Clone, Copy, Debug, PartialEq, Eq)]
pub enum Change {
    TtoB,
    TtoN,
    BtoN,
    TtoT,
    BtoB,
    NtoN,
}

impl Change {
    /// The permission that the copy has now.
    pub fn left(self) -> Perm
        ensures { result ≡ left_by self }
    {
        match self {
            Change::TtoT => Perm::Trunk,
            Change::TtoB | Change::BtoB => Perm::Branch,
            Change::TtoN | Change::BtoN | Change::NtoN => Perm::Nothing,
        }
    }
}

/// What a Probe leaves of a copy, and the change that its answer names.
pub fn shrink(perm: Perm, cap: Cap) -> (Perm, Change)
    ensures { result ≡ shrunk_by perm cap }
{
    match (perm, cap) {
        (Perm::Trunk, Cap::ToT) => (Perm::Trunk, Change::TtoT),
        (Perm::Trunk, Cap::ToB) => (Perm::Branch, Change::TtoB),
        (Perm::Trunk, Cap::ToN) => (Perm::Nothing, Change::TtoN),
        (Perm::Branch, Cap::ToN) => (Perm::Nothing, Change::BtoN),
        (Perm::Branch, _) => (Perm::Branch, Change::BtoB),
        (Perm::Nothing, _) => (Perm::Nothing, Change::NtoN),
    }
}

/// The answer to a Probe names what was held and what is left, and only a Probe toT leaves a Trunk.
pub fn shrink_names_both_ends()
    ensures before { (p : Perm) (c : Cap) → held_before (shrunk_by p c).1 ≡ p }
    ensures after { (p : Perm) (c : Cap) → left_by (shrunk_by p c).1 ≡ (shrunk_by p c).0 }
    ensures pruned { (p : Perm) (c : Cap) → c ≢ Cap.ToT → left_by (shrunk_by p c).1 ≢ Perm.Trunk }
{}
