//! The orders of bodies.

ghost use Rattle.std.specs.Prelude.{◌≡◌, ℕ};
ghost use Rattle.nb_model.specs.declared.body.Body.{Body as Bodies};
ghost use Rattle.nb_model.specs.Valid.{IsInBox};
ghost use Rattle.nb_record.specs.Order.{by_key, by_id};

use nb_key::Key;
use nb_model::Body;

/// An order of bodies: by rank, and by id among bodies of one rank.
pub trait Order {
    /// The rank of a body, which depends on the body alone.
    ghost rank_of: { Bodies → ℕ };

    /// The body's rank.
    fn rank(&self, body: &Body) -> u128
        requires { IsInBox body.now.at }
        ensures { result ≡ rank_of body.now };
}

/// Morton order: by the key of the deepest cell that holds the body. Bodies that have left the box come
/// behind all others.
#[derive(Clone, Copy, Debug)]
pub struct ByKey;

/// By id alone.
#[derive(Clone, Copy, Debug)]
pub struct ById;

impl Order for ByKey {
    ghost rank_of = { by_key };

    fn rank(&self, body: &Body) -> u128 {
        let behind = u128::from(body.out) << u64::BITS;
        behind + u128::from(Key::of(body.at.x, body.at.y, body.at.z).number())
    }
}

impl Order for ById {
    ghost rank_of = { by_id };

    fn rank(&self, body: &Body) -> u128 {
        let _ = body;
        0
    }
}
