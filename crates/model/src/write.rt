//! Writers of pieces and faces: each writes at the front of a lent part and leaves the rest.

ghost use Rattle.std.specs.Prelude.{◌≡◌, ◌+◌, ◌*◌, ◌^◌, ◌<◌, ◌≤◌, ◌++◌, length, drop};
ghost use Rattle.std.specs.Int.{w16};
ghost use Rattle.std.specs.List.{AllByRecursion};
ghost use Rattle.model.specs.Wire.{InRangePiece, InRangeFace, wire_piece, wire_face};
ghost use Rattle.model.specs.Format.{listed, piece_bytes, face_bytes};

use super::fixed::{Fixed, Put};
use plane::types::{Place, Plane};

/// Writes how many things there are, and each; says how many bytes they have.
fn put_list<T: Put + Copy>(out: &mut [u8], things: &[T]) -> usize
    requires few { length things.now < 2 ^ 16 }
    requires range { AllByRecursion T.range things.now }
    requires room { 2 + T.SIZE * length things.now ≤ length out.old }
    ensures written { out.new ≡ listed w16 T.bytes things.now ++ drop result out.old }
    ensures long { result ≡ 2 + T.SIZE * length things.now }
{
    (things.len() as u16).put(out);
    // By its number: of chunks that are lent and written, a proof knows only how long they are.
    for (i, thing) in things.iter().enumerate() {
        thing.put(&mut out[u16::SIZE + T::SIZE * i..]);
    }
    u16::SIZE + T::SIZE * things.len()
}

/// Writes a piece, and says how many bytes it has.
pub fn put_piece(out: &mut [u8], planes: &[Plane], place: Place) -> usize
    requires range { InRangePiece (wire_piece (record { planes = planes.now; place = place })) }
    requires room { 34 + 7 * length planes.now ≤ length out.old }
    ensures written { out.new ≡ piece_bytes (wire_piece (record { planes = planes.now; place = place })) ++ drop result out.old }
    ensures long { result ≡ 34 + 7 * length planes.now }
{
    let at = put_list(out, planes);
    place.put(&mut out[at..]);
    at + Place::SIZE
}

/// Writes a face, and says how many bytes it has.
pub fn put_face(
    out: &mut [u8],
    plane: Plane,
    edges: &[Plane],
    place: Place,
    corners: &[Place],
) -> usize
    requires range { InRangeFace (wire_face (record { plane = plane; edges = edges.now; place = place; corners = corners.now })) }
    requires room { 43 + 7 * length edges.now + 32 * length corners.now ≤ length out.old }
    ensures written { out.new ≡ face_bytes (wire_face (record { plane = plane; edges = edges.now; place = place; corners = corners.now })) ++ drop result out.old }
    ensures long { result ≡ 43 + 7 * length edges.now + 32 * length corners.now }
{
    plane.put(out);
    let at = Plane::SIZE + put_list(&mut out[Plane::SIZE..], edges);
    place.put(&mut out[at..]);
    let end = at + Place::SIZE;
    end + put_list(&mut out[end..], corners)
}
