//! A radius in the units of columns.
ghost use Rattle.std.specs.Prelude.{◌≡◌, ◌^◌, ◌≤◌, pos, map, unsigned_abs, IsTrue, IfOk};
ghost use Rattle.table_schema.specs.Columns.{IsSchema, has_legal_scale, scale_of};
ghost use Rattle.groups.specs.Points as spec;

use pq_base::Scaled;
use schema_types::{Column, Kind};
use std::alloc::{AllocError, Global};

/// How many digits after the point the cells of a column keep.
fn scale_of(kind: Kind) -> u8
    requires { IsTrue (has_legal_scale kind) }
    ensures value { result ≡ scale_of kind }
    ensures few { result ≤ 6 }
{
    match kind {
        Kind::Int | Kind::Text => 0,
        Kind::Dec(scale) => scale as u8,
    }
}

/// Ten to a power.
fn tens(places: u8) -> i128
    requires { places ≤ 6 }
    ensures value { result ≡ pos (10 ^ places) }
    ensures small { unsigned_abs result ≤ 10 ^ 6 }
{
    i128::from(10u64.pow(u32::from(places)))
}

/// The radius in the units of a column, rounded down.
fn radius_in(radius: Scaled, kind: Kind) -> i64
    requires fine { radius.scale ≤ 6 }
    requires near { unsigned_abs radius.mant ≤ 10 ^ 12 }
    requires kind { IsTrue (has_legal_scale kind) }
    ensures { result ≡ spec.radius_in radius kind }
{
    let units = radius.mant * tens(scale_of(kind));
    units.div_euclid(tens(radius.scale)) as i64
}

/// The kind of the column at a place, or that of whole numbers if there is none.
fn kind_at(columns: &[Column], place: usize) -> Kind
    requires { IsSchema columns.now }
    ensures value { result ≡ spec.kind_at columns.now place }
    ensures legal { IsTrue (has_legal_scale result) }
{
    match columns.get(place) {
        Some(column) => column.kind,
        None => Kind::Int,
    }
}

/// The radius in the units of each of the columns at these places.
pub(crate) fn radii_of(
    alloc: Global,
    columns: &[Column],
    places: &[usize],
    radius: Scaled,
) -> Result<Vec<i64>, AllocError>
    requires columns { IsSchema columns.now }
    requires fine { radius.scale ≤ 6 }
    requires near { unsigned_abs radius.mant ≤ 10 ^ 12 }
    ensures { IfOk result (λ radii.
        radii.items ≡ map (spec.radius_at columns.now radius) places.now) }
{
    let mut radii = Vec::with_capacity(alloc, places.len())?;
    for place in places {
        radii.push(radius_in(radius, kind_at(columns, *place)))?;
    }
    Ok(radii)
}
