// The search for a point that satisfies all constraints: they are taken one by one, with a point that satisfies those taken. Where the next one fails there,
// the vertices of it and two before it are searched for one that satisfies them all; none means that no point does.
ghost use Rattle.std.specs.Prelude.{◌≡◌, true, false, ℕ, ◌+◌, ◌≤◌, ◌<◌, MatchOption};
ghost use Rattle.whole.specs.SegmentCall.{plane_within};
ghost use Rattle.exact.specs.Steps.{plane_of, vertex_of, faces, Shared, Satisfying, Good, Visible};

use crate::constraint::FACES;
use crate::plane::{Plane, Point, vertex};
use crate::scene::Scene;

impl<'a> Scene<'a> {
    // The vertex of three planes, where there is one and it satisfies the first n constraints.
    fn vertex_in_view(&self, n: u32, a: Plane, b: Plane, c: Plane) -> Option<Point>
        requires { (n ≤ faces + self.now.view.count) × (plane_within (plane_of a) ≡ true) × (plane_within (plane_of b) ≡ true) × (plane_within (plane_of c) ≡ true) }
        ensures { let V = vertex_of (plane_of a) (plane_of b) (plane_of c) in
            MatchOption result (¬ Visible self.now.view.numbers.now self.now.bounds.now n V) (λ p. (p ≡ V) × Visible self.now.view.numbers.now self.now.bounds.now n V) }
    {
        let p = vertex(a, b, c)?;
        if self.in_view(n, p) { Some(p) } else { None }
    }

    // A vertex of the constraint n, of the one given and of a third before that, which satisfies all up to n.
    fn with_third(&self, n: u32, second: u32) -> Option<Point>
        requires { (n < faces + self.now.view.count) × (second < n) }
        ensures { let v = self.now.view.numbers.now in let b = self.now.bounds.now in
            MatchOption result ((c : ℕ) → c < second → ¬ Good v b n second c) (Satisfying v b (n + 1)) }
    {
        let a = self.constraint(n);
        let b = self.constraint(second);
        for i in 0..second {
            let c = self.constraint(i);
            if let Some(p) = self.vertex_in_view(n + 1, a, b, c) {
                return Some(p);
            }
        }
        None
    }

    // A vertex of the constraint n and two before it, which satisfies all up to n.
    fn with_two(&self, n: u32) -> Option<Point>
        requires { n < faces + self.now.view.count }
        ensures { let v = self.now.view.numbers.now in let w = self.now.bounds.now in
            MatchOption result ((b c : ℕ) → b < n → c < b → ¬ Good v w n b c) (Satisfying v w (n + 1)) }
    {
        for second in 0..n {
            if let Some(p) = self.with_third(n, second) {
                return Some(p);
            }
        }
        None
    }

    // From a point that satisfies the constraints before n to one that satisfies that one too. The box's corner that is farthest along it is tried first.
    fn with_next(&self, n: u32, p: Point) -> Option<Point>
        requires { (n < faces + self.now.view.count) × (faces ≤ n) × Satisfying self.now.view.numbers.now self.now.bounds.now n p }
        ensures { let v = self.now.view.numbers.now in let b = self.now.bounds.now in
            MatchOption result (¬ Shared v b (n + 1)) (Satisfying v b (n + 1)) }
    {
        let c = self.constraint(n);
        if c.holds(p) {
            return Some(p);
        }
        let corner = self.farthest(c.normal);
        if self.in_view(n + 1, corner) {
            return Some(corner);
        }
        self.with_two(n)
    }

    // Whether the box reaches every plane of the view: where it is wholly behind one, they share no point.
    pub(crate) fn reaches(&self) -> bool
        ensures { result ≡ false → ¬ Shared self.now.view.numbers.now self.now.bounds.now (faces + self.now.view.count) }
    {
        for i in FACES..self.constraints() {
            let c = self.constraint(i);
            if !c.holds(self.farthest(c.normal)) {
                return false;
            }
        }
        true
    }

    // A point that satisfies the faces of the box and the planes of the view.
    pub(crate) fn shared(&self) -> Option<Point>
        ensures { let v = self.now.view.numbers.now in let b = self.now.bounds.now in let n = faces + self.now.view.count in
            MatchOption result (¬ Shared v b n) (Satisfying v b n) }
    {
        let mut p = self.least_corner();
        for n in FACES..self.constraints() {
            p = self.with_next(n, p)?;
        }
        Some(p)
    }
}
