//! The types that store an index: `u8`, `u16` and `u32`.

ghost use Rattle.std.specs.Prelude.{◌<◌, ◌^◌};

use super::IndexStorage;

impl IndexStorage for u8 {
    ghost MAX = { 255 };

    ghost number = { λ x. x };

    ghost IsIndex = { λ x. x < 2 ^ 8 };

    ghost use Rattle.std.proofs.Common.{rules};
    ghost use Rattle.lrgrammar.specs.HashLaws.{hashed_u8};

    ghost least = { Prim.search rules };

    ghost most = { Prim.search rules };

    ghost injective = { λ x y h. h };

    ghost ordered = { Prim.search rules };

    ghost same = { Prim.search rules };

    ghost copied = { Prim.search rules };

    ghost bounded = { Prim.search rules };

    ghost hashed = { hashed_u8 };

    const MAX: usize = 255;

    fn to_usize(self) -> usize {
        self as usize
    }

    fn from_usize(n: usize) -> Option<u8> {
        if n <= 255 { Some(n as u8) } else { None }
    }
}

impl IndexStorage for u16 {
    ghost MAX = { 65535 };

    ghost number = { λ x. x };

    ghost IsIndex = { λ x. x < 2 ^ 16 };

    ghost use Rattle.std.proofs.Common.{rules};
    ghost use Rattle.lrgrammar.specs.HashLaws.{hashed_u16};

    ghost least = { Prim.search rules };

    ghost most = { Prim.search rules };

    ghost injective = { λ x y h. h };

    ghost ordered = { Prim.search rules };

    ghost same = { Prim.search rules };

    ghost copied = { Prim.search rules };

    ghost bounded = { Prim.search rules };

    ghost hashed = { hashed_u16 };

    const MAX: usize = 65535;

    fn to_usize(self) -> usize {
        self as usize
    }

    fn from_usize(n: usize) -> Option<u16> {
        if n <= 65535 { Some(n as u16) } else { None }
    }
}

impl IndexStorage for u32 {
    ghost MAX = { 4294967295 };

    ghost number = { λ x. x };

    ghost IsIndex = { λ x. x < 2 ^ 32 };

    ghost use Rattle.std.proofs.Common.{rules};
    ghost use Rattle.lrgrammar.specs.HashLaws.{hashed_u32};

    ghost least = { Prim.search rules };

    ghost most = { Prim.search rules };

    ghost injective = { λ x y h. h };

    ghost ordered = { Prim.search rules };

    ghost same = { Prim.search rules };

    ghost copied = { Prim.search rules };

    ghost bounded = { Prim.search rules };

    ghost hashed = { hashed_u32 };

    const MAX: usize = 4294967295;

    fn to_usize(self) -> usize {
        self as usize
    }

    fn from_usize(n: usize) -> Option<u32> {
        if n <= 4294967295 {
            Some(n as u32)
        } else {
            None
        }
    }
}
