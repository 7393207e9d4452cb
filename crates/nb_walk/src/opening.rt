//! Which cells act as one mass.

ghost use Rattle.std.specs.Prelude.{◌≡◌, ℕ, Bool};
ghost use Rattle.nb_model.specs.declared.body.At.{At};
ghost use Rattle.nb_model.specs.declared.params.Params.{Params};
ghost use Rattle.nb_model.specs.Valid.{AreInRange, IsInBox};
ghost use Rattle.nb_walk.specs.Angle.{by_angle};

use nb_fixed::opens;
use nb_model::{At, Params};
use nb_record::CellView;

/// Which cells act on a target as one mass.
pub trait Opening {
    // The meaning: whether a cell is taken as one mass, by the parameters, the target, and the cell's key,
    // mass and centre.
    ghost meaning: { Self → Params → At → ℕ → ℕ → At → Bool };

    /// Whether the cell acts on a target at `from`, in box units, as one mass at its centre.
    fn whole(&self, params: &Params, from: &At, cell: &CellView<'_>) -> bool
        requires params { AreInRange params.now }
        requires from { IsInBox from.now }
        ensures { result ≡ meaning self.now params.now from.now cell.now.key cell.now.mass cell.now.centre };
}

/// The opening angle (Barnes and Hut 1986): a cell acts as one mass where it doesn't hold the target, and its
/// side over the distance of its centre is below `theta_num / theta_den`.
#[derive(Clone, Copy, PartialEq, Eq, Debug)]
pub struct ByAngle;

impl Opening for ByAngle {
    ghost meaning = { λ opening params from key mass centre. by_angle params from key centre };

    fn whole(&self, params: &Params, from: &At, cell: &CellView<'_>) -> bool {
        let key = cell.key();
        let inside = key.contains(from.x, from.y, from.z);
        !opens(params, from, key.level(), &cell.centre(), inside)
    }
}
