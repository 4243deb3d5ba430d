//! Numbers as bytes: those of things without a sign, all others in two's complement.
// An impl a number: std has `to_le_bytes` and `from_le_bytes` in no trait, and a macro writes no ghost member.

ghost use Rattle.std.specs.Prelude.{◌^◌, ◌<◌, FitsSigned};
ghost use Rattle.std.specs.Int.{w8, w16, w32, w64};
ghost use Rattle.model.specs.Format.{count_bytes, signed_bytes};
ghost use Rattle.std.proofs.Common.{leb→le};

use super::fixed::{Fixed, Put, Read, array_at, put_array};

impl Fixed for u16 {
    const SIZE: usize = 2;

    ghost SIZE = { 2 };

    ghost bytes = { count_bytes w16 };

    ghost range = { λ n. n < 2 ^ 16 };

    ghost small = { leb→le 2 32 tt };
}

#[tactic(auto, using(crate::proofs::Codes::count_written))]
impl Put for u16 {
    fn put(self, out: &mut [u8]) {
        put_array(out, u16::to_le_bytes(self));
    }
}

impl Read for u16 {
    fn read(model: &[u8], at: usize) -> u16 {
        u16::from_le_bytes(array_at(model, at))
    }
}

impl Fixed for u32 {
    const SIZE: usize = 4;

    ghost SIZE = { 4 };

    ghost bytes = { count_bytes w32 };

    ghost range = { λ n. n < 2 ^ 32 };

    ghost small = { leb→le 4 32 tt };
}

#[tactic(auto, using(crate::proofs::Codes::count_written))]
impl Put for u32 {
    fn put(self, out: &mut [u8]) {
        put_array(out, u32::to_le_bytes(self));
    }
}

impl Read for u32 {
    fn read(model: &[u8], at: usize) -> u32 {
        u32::from_le_bytes(array_at(model, at))
    }
}

impl Fixed for i8 {
    const SIZE: usize = 1;

    ghost SIZE = { 1 };

    ghost bytes = { signed_bytes w8 };

    ghost range = { FitsSigned w8 };

    ghost small = { leb→le 1 32 tt };
}

#[tactic(auto, using(crate::proofs::Codes::signed_written))]
impl Put for i8 {
    fn put(self, out: &mut [u8]) {
        put_array(out, i8::to_le_bytes(self));
    }
}

impl Read for i8 {
    fn read(model: &[u8], at: usize) -> i8 {
        i8::from_le_bytes(array_at(model, at))
    }
}

impl Fixed for i32 {
    const SIZE: usize = 4;

    ghost SIZE = { 4 };

    ghost bytes = { signed_bytes w32 };

    ghost range = { FitsSigned w32 };

    ghost small = { leb→le 4 32 tt };
}

#[tactic(auto, using(crate::proofs::Codes::signed_written))]
impl Put for i32 {
    fn put(self, out: &mut [u8]) {
        put_array(out, i32::to_le_bytes(self));
    }
}

impl Read for i32 {
    fn read(model: &[u8], at: usize) -> i32 {
        i32::from_le_bytes(array_at(model, at))
    }
}

impl Fixed for i64 {
    const SIZE: usize = 8;

    ghost SIZE = { 8 };

    ghost bytes = { signed_bytes w64 };

    ghost range = { FitsSigned w64 };

    ghost small = { leb→le 8 32 tt };
}

#[tactic(auto, using(crate::proofs::Codes::signed_written))]
impl Put for i64 {
    fn put(self, out: &mut [u8]) {
        put_array(out, i64::to_le_bytes(self));
    }
}

impl Read for i64 {
    fn read(model: &[u8], at: usize) -> i64 {
        i64::from_le_bytes(array_at(model, at))
    }
}
