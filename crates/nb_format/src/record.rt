//! A record: the bytes of one body.

ghost use Rattle.std.specs.Prelude.{◌≡◌, ◌≤◌, ◌↔◌, false, IsTrue, IfOk, IfErr, Some};
ghost use Rattle.nb_model.specs.Limits.{speed_limit};
ghost use Rattle.nb_model.specs.Valid.{IsBelow, IsValidBody};
ghost use Rattle.nb_model.specs.Bytes.{body_bytes};
ghost use Rattle.nb_format.specs.Snapshot.{IsStoredBody};

use crate::SnapError;
use crate::bytes::{put, u32_at, u64_at};
use nb_model::{At, Body, SPEED_LIMIT, V3};

/// The length of a record, in bytes.
pub(crate) const RECORD_LENGTH: usize = 64;

// The offsets of the fields, in bytes.
const ID_AT: usize = 0;

const MASS_AT: usize = 8;

const FLAG_AT: usize = 12;

const X_AT: usize = 16;

const Y_AT: usize = 24;

const Z_AT: usize = 32;

const VELOCITY_X_AT: usize = 40;

const VELOCITY_Y_AT: usize = 48;

const VELOCITY_Z_AT: usize = 56;

// The two values of a flag.
const IN_BOX: u32 = 0;

const OUT: u32 = 1;

/// The fields of a record as they stand there. Any 64 bytes have them; not all are a body's.
#[derive(Clone, Copy, Debug)]
pub(crate) struct Fields {
    pub(crate) id: u64,
    pub(crate) mass: u32,
    /// 1 for a body that has left the box, and 0 for any other.
    pub(crate) flag: u32,
    pub(crate) at: At,
    pub(crate) v: V3,
}

impl Fields {
    ghost use Rattle.nb_format.specs.Fields.{fields_of, fields_bytes};
    ghost use Rattle.nb_format.specs.SnapshotRefusal.{field_refusal, IsOfRecord};

    /// The fields of a body.
    pub(crate) fn of(body: &Body) -> Fields
        ensures { result ≡ fields_of body.now }
    {
        let flag = if body.out { OUT } else { IN_BOX };
        Fields {
            id: body.id,
            mass: body.mass,
            flag,
            at: body.at,
            v: body.v,
        }
    }

    /// The fields that the bytes spell.
    pub(crate) fn decode(bytes: &[u8; RECORD_LENGTH]) -> Fields
        ensures { bytes.now ≡ fields_bytes result }
    {
        Fields {
            id: u64_at(bytes, ID_AT),
            mass: u32_at(bytes, MASS_AT),
            flag: u32_at(bytes, FLAG_AT),
            at: At {
                x: u64_at(bytes, X_AT),
                y: u64_at(bytes, Y_AT),
                z: u64_at(bytes, Z_AT),
            },
            v: V3 {
                x: u64_at(bytes, VELOCITY_X_AT).cast_signed(),
                y: u64_at(bytes, VELOCITY_Y_AT).cast_signed(),
                z: u64_at(bytes, VELOCITY_Z_AT).cast_signed(),
            },
        }
    }

    /// The bytes that spell the fields.
    pub(crate) fn encode(&self) -> [u8; RECORD_LENGTH]
        ensures { result ≡ fields_bytes self.now }
    {
        let mut bytes = [0; RECORD_LENGTH];
        put(&mut bytes, ID_AT, &self.id.to_le_bytes());
        put(&mut bytes, MASS_AT, &self.mass.to_le_bytes());
        put(&mut bytes, FLAG_AT, &self.flag.to_le_bytes());
        put(&mut bytes, X_AT, &self.at.x.to_le_bytes());
        put(&mut bytes, Y_AT, &self.at.y.to_le_bytes());
        put(&mut bytes, Z_AT, &self.at.z.to_le_bytes());
        put(
            &mut bytes,
            VELOCITY_X_AT,
            &self.v.x.cast_unsigned().to_le_bytes(),
        );
        put(
            &mut bytes,
            VELOCITY_Y_AT,
            &self.v.y.cast_unsigned().to_le_bytes(),
        );
        put(
            &mut bytes,
            VELOCITY_Z_AT,
            &self.v.z.cast_unsigned().to_le_bytes(),
        );
        bytes
    }

    /// The body of these fields, or the first of them behind the id that no body has. `index` is that of
    /// the record.
    pub(crate) fn body(self, index: u64) -> Result<Body, SnapError>
        ensures fields { IfOk result (λ body. fields_of body ≡ self) }
        ensures stored { IfOk result IsStoredBody }
        ensures refusal { IfErr result (λ e. field_refusal index self ≡ Some e) }
        ensures code { IfErr result (IsOfRecord index) }
    {
        if self.mass == 0 {
            return Err(SnapError::Mass(index));
        }
        if !is_flag(self.flag) {
            return Err(SnapError::Flag(index));
        }
        if !self.at.is_in_box() {
            return Err(SnapError::Place(index));
        }
        let out = self.flag == OUT;
        if !may_move(out, &self.v) {
            return Err(SnapError::Speed(index));
        }
        Ok(Body {
            id: self.id,
            mass: self.mass,
            out,
            at: self.at,
            v: self.v,
        })
    }
}

/// The record of a body.
pub(crate) fn encode(body: &Body) -> [u8; RECORD_LENGTH]
    ensures bytes { result ≡ body_bytes body.now }
    ensures stored { IsValidBody body.now → IsStoredBody body.now }
{
    Fields::of(body).encode()
}

/// Whether the flag has one of its two values.
fn is_flag(flag: u32) -> bool
    ensures { IsTrue result ↔ (flag ≤ 1) }
{
    flag == IN_BOX || flag == OUT
}

/// Whether a body may have this velocity: any, where it has left the box.
fn may_move(out: bool, v: &V3) -> bool
    ensures { IsTrue result ↔ (out ≡ false → IsBelow speed_limit v.now) }
{
    out || v.is_below(SPEED_LIMIT)
}
