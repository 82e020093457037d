// How far the planes of a view cut into a segment from its ends, all but one of them, for each that may be the one.
ghost use Rattle.std.specs.Prelude.{◌≡◌};
ghost use Rattle.number.specs.Places.{places_below, first_of};
ghost use Rattle.verdict.specs.View.{plane_at, planes_of};
ghost use Rattle.blocking.specs.Blocking.{blocking_plane};
ghost use Rattle.blocking.specs.Steps.{cut_from, no_cut, with_cut, furthest_without, cuts_with, cuts_below, leave_without};

use matrix::vec::Vec3d;
use number::order::upper;
use verdict::passes::crossing;
use verdict::plane::Plane;
use verdict::view::Planes;

// How far a plane cuts from an end of a segment, by whether it has this end and the other one on its positive side.
fn cut_from(here: bool, there: bool, end: f64, at: f64) -> f64
    ensures { result ≡ cut_from here there end at }
{
    if here {
        return f64::NEG_INFINITY;
    }
    if there {
        return upper(end, at);
    }
    f64::INFINITY
}

// How far the planes passed cut from one end, the place of one that cuts so far, and how far the others cut.
#[derive(Clone, Copy)]
struct Cut {
    furthest: f64,
    place: Option<u32>,
    next: f64,
}

impl Cut {
    // No plane has passed.
    fn none() -> Cut
        ensures { result ≡ no_cut }
    {
        Cut {
            furthest: f64::NEG_INFINITY,
            place: None,
            next: f64::NEG_INFINITY,
        }
    }

    // With one plane more, at a place.
    fn with(self, cut: f64, i: u32) -> Cut
        ensures { result ≡ with_cut self cut i }
    {
        if self.furthest < cut {
            return Cut {
                furthest: cut,
                place: Some(i),
                next: self.furthest,
            };
        }
        Cut {
            furthest: self.furthest,
            place: self.place,
            next: upper(self.next, cut),
        }
    }

    // How far they cut without the plane at a place.
    fn without(self, i: u32) -> f64
        ensures { result ≡ furthest_without self i }
    {
        if self.place == Some(i) {
            return self.next;
        }
        self.furthest
    }
}

// At both ends. At the second it is told with the sign turned, so that further is larger at both.
#[derive(Clone, Copy)]
struct Cuts {
    start: Cut,
    end: Cut,
}

impl Cuts {
    fn with(self, plane: Plane, a: Vec3d, b: Vec3d, i: u32) -> Cuts
        ensures { result ≡ cuts_with self plane a b i }
    {
        let in_a = plane.on_positive_side(a);
        let in_b = plane.on_positive_side(b);
        let at = crossing(plane, a, b);
        let start = self.start;
        let end = self.end;
        Cuts {
            start: start.with(cut_from(in_a, in_b, 0.0, at), i),
            end: end.with(cut_from(in_b, in_a, -1.0, -at), i),
        }
    }

    // Whether the planes leave some of the segment without that at a place.
    fn leave_without(self, i: u32) -> bool
        ensures { result ≡ leave_without self i }
    {
        let start = self.start;
        let end = self.end;
        !(-start.without(i) < end.without(i))
    }
}

// The cuts of some planes.
fn cuts_of(planes: Planes, a: Vec3d, b: Vec3d) -> Cuts
    ensures { result ≡ cuts_below (plane_at planes.entry.numbers.now) a b planes.entry.count }
{
    let mut cuts = Cuts {
        start: Cut::none(),
        end: Cut::none(),
    };
    for i in 0..planes.count {
        cuts = cuts.with(planes.plane(i), a, b, i);
    }
    cuts
}

// The first place without whose plane so many planes leave some of the segment.
fn first_blocking(cuts: Cuts, count: u32) -> Option<u32>
    ensures { result ≡ first_of (places_below count (leave_without cuts)) }
{
    (0..count).find(|place| cuts.leave_without(*place))
}

// The lowest place of the planes without which some of a segment would be in the view.
pub(crate) fn blocking_plane(planes: Planes, a: Vec3d, b: Vec3d) -> Option<u32>
    ensures { result ≡ blocking_plane (planes_of planes.entry.numbers.now planes.entry.count) a b }
{
    first_blocking(cuts_of(planes, a, b), planes.count)
}
