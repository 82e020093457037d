// The rays of a slice, each asked of one triangle, of which the plane is made once. Whether a ray hits is as good as any guess, so that a branch for it would throw
// away what is on its way of the next: the numbers of all rays come first, and then zeros for those that miss.
ghost use Rattle.std.specs.Prelude.{◌≡◌, cond, ◌++◌, ◌+◌, ◌*◌, ◌≤◌, eqb, length, take, drop};
ghost use Rattle.number.specs.Limits.{ray_length, hit_length};
ghost use Rattle.number.specs.Records.{record_at, records};
ghost use Rattle.verdict.specs.Ray.{ray_of, triangle_numbers};
ghost use Rattle.rays.specs.Rays.{no_hit, hit_numbers, statuses_of};
ghost use Rattle.rays.specs.Steps.{hit_status, hits_on, cleared};

use number::answer::{Refusal, status};
use number::limits::{HIT_LENGTH, RAY_LENGTH};
use verdict::ray::{Ray, Triangle, TriangleHit};

// Ray i of a slice.
fn ray_at(s: &[f64], i: usize) -> Ray
    requires { i * ray_length + ray_length ≤ length s.now }
    ensures { result ≡ ray_of (record_at ray_length s.now i) }
{
    let from = i * RAY_LENGTH;
    Ray::load(&s[from..from + RAY_LENGTH])
}

// The slots are C's: 0 for a hit, and the number of a miss.
fn hit_status(hit: bool) -> u32
    ensures { result ≡ hit_status hit }
{
    status(hit.then_some(()).ok_or(Refusal::Miss))
}

// The five numbers of a hit, to a slice from a place on.
fn store_hit(hit: TriangleHit, out: &mut [f64], from: usize)
    requires { from + hit_length ≤ length out.old }
    ensures { out.new ≡ take from out.old ++ triangle_numbers hit ++ drop (from + hit_length) out.old }
{
    out[from..from + HIT_LENGTH].copy_from_slice(&hit.record());
}

// The slot of each ray, and five numbers, which are those of its hit if there is one. Nothing here waits for whether it hits. The numbers are stored by place: once
// `chunks_exact_mut` is done, no contract says what stands in the slice.
fn meet(triangle: Triangle, s: &[f64], out: &mut [f64], status: &mut [u32])
    requires { (length s.now ≡ length status.old * ray_length) × (length out.old ≡ length status.old * hit_length) }
    ensures { (cleared status.new out.new ≡ hit_numbers (hits_on triangle (records ray_length (length status.old) s.now))) × (status.new ≡ statuses_of (hits_on triangle (records ray_length (length status.old) s.now))) × (length out.new ≡ length out.old) × (length status.new ≡ length status.old) }
{
    for (i, slot) in status.iter_mut().enumerate() {
        let meeting = triangle.met_by(ray_at(s, i));
        *slot = hit_status(meeting.hit);
        store_hit(meeting.numbers, out, i * HIT_LENGTH);
    }
}

// Five zeros, to a slice from a place on, unless the slot is that of a hit.
fn clear_unless(slot: u32, out: &mut [f64], from: usize)
    requires { from + hit_length ≤ length out.old }
    ensures { out.new ≡ cond (eqb slot 0) out.old (take from out.old ++ no_hit ++ drop (from + hit_length) out.old) }
{
    if slot != 0 {
        out[from..from + HIT_LENGTH].fill(0.0);
    }
}

// Zeros for each ray whose slot is not that of a hit.
fn clear_misses(out: &mut [f64], slots: &[u32])
    requires { length out.old ≡ length slots.now * hit_length }
    ensures { out.new ≡ cleared slots.now out.old }
{
    for (i, slot) in slots.iter().enumerate() {
        clear_unless(*slot, out, i * HIT_LENGTH);
    }
}

// What comes of each ray: its numbers, and its slot.
pub(crate) fn answer(triangle: Triangle, s: &[f64], out: &mut [f64], status: &mut [u32])
    requires { (length s.now ≡ length status.old * ray_length) × (length out.old ≡ length status.old * hit_length) }
    ensures { (out.new ≡ hit_numbers (hits_on triangle (records ray_length (length status.old) s.now))) × (status.new ≡ statuses_of (hits_on triangle (records ray_length (length status.old) s.now))) }
{
    meet(triangle, s, out, status);
    clear_misses(out, status);
}
