// A box and a view on the grid.
ghost use Rattle.std.specs.Prelude.{◌≡◌, true, ◌+◌};
ghost use Rattle.exact.specs.BBoxCall.{box_within};
ghost use Rattle.exact.specs.Steps.{faces, Constraints};

use number::limits::RANGE_LENGTH;
use whole::view::WholeView;

// Its constraints are the six faces of the box, then the planes of the view.
#[derive(Clone, Copy)]
pub struct Scene<'a> {
    pub view: WholeView<'a>,
    pub bounds: &'a [i32; RANGE_LENGTH],
    pub ghost constraints: { Constraints view.numbers.now bounds.now (faces + view.count) },
    pub ghost box_on_grid: { box_within bounds.now ≡ true },
}
