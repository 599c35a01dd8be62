//! Writing a few bodies over earlier ones.

ghost use Rattle.std.specs.Prelude.{◌≡◌, ◌<◌, ◌≤◌, ◌+◌, ◌*◌, ◌++◌, ◌∷◌, [], All, length, take};

use crate::body::Body;

/// Writes a body at an index of a list.
#[inline(always)]
fn put_body(body: Body, list: &mut [Body], index: usize)
    requires { index < length list.old }
    ensures length_stays { length list.new ≡ length list.old }
    ensures is_written { take (index + 1) list.new ≡ take index list.old ++ body ∷ [] }
{
    list[index] = body;
}

/// Writes two bodies from `index` on.
#[inline(always)]
fn put_two(bodies: &[Body], list: &mut [Body], index: usize)
    requires two_bodies { length bodies.now ≡ 2 }
    requires fits { index + 2 ≤ length list.old }
    ensures length_stays { length list.new ≡ length list.old }
    ensures are_written { take (index + 2) list.new ≡ take index list.old ++ bodies.now }
{
    put_body(bodies[0], list, index);
    put_body(bodies[1], list, index + 1);
}

/// Writes four bodies from `index` on. All are read before the first is written, so that a
/// compiler needs no test whether the lists overlap, and copies them at once.
#[inline(always)]
fn put_four(bodies: &[Body], list: &mut [Body], index: usize)
    requires four_bodies { length bodies.now ≡ 4 }
    requires fits { index + 4 ≤ length list.old }
    ensures length_stays { length list.new ≡ length list.old }
    ensures are_written { take (index + 4) list.new ≡ take index list.old ++ bodies.now }
{
    let (first, second, third, fourth) = (bodies[0], bodies[1], bodies[2], bodies[3]);
    put_body(first, list, index);
    put_body(second, list, index + 1);
    put_body(third, list, index + 2);
    put_body(fourth, list, index + 3);
}

/// Writes bodies from `index` on.
#[inline(always)]
fn put_all(bodies: &[Body], list: &mut [Body], index: usize)
    requires { index + length bodies.now ≤ length list.old }
    ensures length_stays { length list.new ≡ length list.old }
    ensures are_written { take (index + length bodies.now) list.new
        ≡ take index list.old ++ bodies.now }
{
    let end = index + bodies.len();
    list[index..end].copy_from_slice(bodies);
}

/// Writes bodies from `index` on. It is fast for 2, 4 or 8 bodies, if their number is known
/// when the program is compiled.
#[inline(always)]
fn put_width(bodies: &[Body], list: &mut [Body], index: usize)
    requires { index + length bodies.now ≤ length list.old }
    ensures length_stays { length list.new ≡ length list.old }
    ensures are_written { take (index + length bodies.now) list.new
        ≡ take index list.old ++ bodies.now }
{
    if bodies.len() == 2 {
        put_two(bodies, list, index);
    } else if bodies.len() == 4 {
        put_four(bodies, list, index);
    } else if bodies.len() == 8 {
        put_four(&bodies[..4], list, index);
        put_four(&bodies[4..], list, index + 4);
    } else {
        put_all(bodies, list, index);
    }
}

/// Writes bodies from `index` on, by a copy of the first `width` bodies and one of the last.
/// The two overlap if there are fewer than twice as many bodies. With a constant `width`, a copy
/// is a few instructions and no call.
#[inline(always)]
fn put_ends(bodies: &[Body], list: &mut [Body], index: usize, width: usize)
    requires width_le_count { width ≤ length bodies.now }
    requires count_le_double_width { length bodies.now ≤ 2 * width }
    requires fits { index + length bodies.now ≤ length list.old }
    ensures length_stays { length list.new ≡ length list.old }
    ensures are_written { take (index + length bodies.now) list.new
        ≡ take index list.old ++ bodies.now }
{
    let left = bodies.len() - width;
    put_width(&bodies[..width], list, index);
    put_width(&bodies[left..], list, index + left);
}

/// Writes what replaces a variable from `index` on. It mostly is short.
#[inline(always)]
pub fn put_bodies(bodies: &[Body], list: &mut [Body], index: usize)
    requires { index + length bodies.now ≤ length list.old }
    ensures length_stays { length list.new ≡ length list.old }
    ensures are_written { take (index + length bodies.now) list.new
        ≡ take index list.old ++ bodies.now }
{
    let count = bodies.len();
    if count <= 1 {
        if count == 1 {
            put_body(bodies[0], list, index);
        }
    } else if count <= 4 {
        put_ends(bodies, list, index, 2);
    } else if count <= 8 {
        put_ends(bodies, list, index, 4);
    } else if count <= 16 {
        put_ends(bodies, list, index, 8);
    } else {
        put_all(bodies, list, index);
    }
}
