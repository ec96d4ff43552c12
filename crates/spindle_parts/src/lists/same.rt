//! Types of which equal values are the same value. A plain `Vec` isn't one, since contracts see its capacity.
ghost use Rattle.std.specs.Prelude.{◌≡◌, true};
ghost use Rattle.std.proofs.Common.{rules};
ghost use Rattle.spindle_parts.specs.Same.{equal_pairs_are_same};

/// Types of which equal values are the same value, as a job's inputs must be.
pub trait EqualIsSame: Eq {
    ghost equal_is_same: { (x y : Self) → Self.eq x y ≡ true → x ≡ y };
}

impl EqualIsSame for u8 {
    ghost equal_is_same = { Prim.search rules };
}

impl EqualIsSame for u16 {
    ghost equal_is_same = { Prim.search rules };
}

impl EqualIsSame for u32 {
    ghost equal_is_same = { Prim.search rules };
}

impl EqualIsSame for u64 {
    ghost equal_is_same = { Prim.search rules };
}

impl EqualIsSame for u128 {
    ghost equal_is_same = { Prim.search rules };
}

impl EqualIsSame for usize {
    ghost equal_is_same = { Prim.search rules };
}

impl EqualIsSame for i8 {
    ghost equal_is_same = { Prim.search rules };
}

impl EqualIsSame for i16 {
    ghost equal_is_same = { Prim.search rules };
}

impl EqualIsSame for i32 {
    ghost equal_is_same = { Prim.search rules };
}

impl EqualIsSame for i64 {
    ghost equal_is_same = { Prim.search rules };
}

impl EqualIsSame for i128 {
    ghost equal_is_same = { Prim.search rules };
}

impl EqualIsSame for isize {
    ghost equal_is_same = { Prim.search rules };
}

impl EqualIsSame for bool {
    ghost equal_is_same = { Prim.search rules };
}

impl EqualIsSame for char {
    ghost equal_is_same = { Prim.search rules };
}

impl EqualIsSame for () {
    ghost equal_is_same = { Prim.search rules };
}

impl<A: EqualIsSame, B: EqualIsSame> EqualIsSame for (A, B) {
    ghost equal_is_same = { equal_pairs_are_same A.eq B.eq A.equal_is_same B.equal_is_same };
}
