//! Planes and places as bytes.

ghost use Rattle.std.specs.Prelude.{◌^◌, ◌<◌};
ghost use Rattle.model.specs.Wire.{InRangePlane, InRangePlace, wire_place};
ghost use Rattle.model.specs.Format.{plane_bytes, place_bytes};
ghost use Rattle.std.proofs.Common.{leb→le};

use super::fixed::{Fixed, Put, Read};
use super::types::RawPlace;
use plane::types::{Place, Plane};

impl Fixed for Plane {
    const SIZE: usize = 7;

    ghost SIZE = { 7 };

    ghost bytes = { plane_bytes };

    ghost range = { InRangePlane };

    ghost small = { leb→le 7 32 tt };
}

impl Put for Plane {
    fn put(self, out: &mut [u8]) {
        (self.a as i8).put(out);
        (self.b as i8).put(&mut out[1..]);
        (self.c as i8).put(&mut out[2..]);
        (self.d as i32).put(&mut out[3..]);
    }
}

impl Read for Plane {
    fn read(model: &[u8], at: usize) -> Plane {
        Plane {
            a: i64::from(i8::read(model, at)),
            b: i64::from(i8::read(model, at + 1)),
            c: i64::from(i8::read(model, at + 2)),
            d: i64::from(i32::read(model, at + 3)),
        }
    }
}

impl Fixed for RawPlace {
    const SIZE: usize = 32;

    ghost SIZE = { 32 };

    ghost bytes = { place_bytes };

    ghost range = { InRangePlace };

    ghost small = { leb→le 32 32 tt };
}

impl Read for RawPlace {
    fn read(model: &[u8], at: usize) -> RawPlace {
        RawPlace {
            x: i64::read(model, at),
            y: i64::read(model, at + 8),
            z: i64::read(model, at + 16),
            w: i64::read(model, at + 24),
        }
    }
}

// A place is written as it is read, but w has no sign.
impl Fixed for Place {
    const SIZE: usize = 32;

    ghost SIZE = { 32 };

    ghost bytes = { λ q. place_bytes (wire_place q) };

    ghost range = { λ q. q.w < 2 ^ 63 };

    ghost small = { leb→le 32 32 tt };
}

impl Put for Place {
    fn put(self, out: &mut [u8]) {
        self.x.put(out);
        self.y.put(&mut out[8..]);
        self.z.put(&mut out[16..]);
        (self.w as i64).put(&mut out[24..]);
    }
}
