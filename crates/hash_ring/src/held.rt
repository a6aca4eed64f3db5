//! The points of names in an ordered set: how those of a name come in and go.

ghost use Rattle.std.specs.Prelude.{◌≡◌, ◌<◌, [], OnOk, OnErr, MatchOption};
ghost use Rattle.hash_ring.specs.Points.{IsPointOf};
ghost use Rattle.std.specs.List.Sorted.{IsStrictlySortedBy};
ghost use Rattle.std.specs.Ordering.{nat_cmp};
ghost use Rattle.std.specs.Cmp.Lexicographic.{slice_cmp};
ghost use Rattle.hash_ring.specs.Names.{with_name};
ghost use Rattle.hash_ring.specs.Held.{pairs, spelled, GrewBy, GrewByAll, LostName, IsPointIn};
ghost use Rattle.hash_ring.specs.Held.{HaveSamePairs, IsApart, IsFirstFrom, pair_of};

use crate::point::{Point, digest_of, number_at};
use std::alloc::{AllocError, Global};
use std::collections::BTreeSet;

/// How many digests give points for a name.
const ROUNDS: u8 = 40;

/// How many points a digest gives: one for each four of its bytes.
const QUARTERS: usize = 4;

/// Puts in the points of a name. After a refusal some of them may be there.
pub(crate) fn put_points(
    alloc: Global,
    points: &mut BTreeSet<Point>,
    name: &str,
) -> Result<(), AllocError>
    ensures came { OnOk result (GrewByAll (IsPointOf name.now) (pairs points.old) (pairs points.new)) }
    ensures partly { OnErr result (GrewBy (IsPointOf name.now) (pairs points.old) (pairs points.new)) }
{
    for round in 0..ROUNDS {
        put_round(alloc, points, name, round)?;
    }
    Ok(())
}

/// Puts in the points of one digest of a name.
fn put_round(
    alloc: Global,
    points: &mut BTreeSet<Point>,
    name: &str,
    round: u8,
) -> Result<(), AllocError>
    requires { round < 40 }
    ensures came { OnOk result
        (GrewByAll (IsPointIn name.now round 4) (pairs points.old) (pairs points.new)) }
    ensures partly { OnErr result
        (GrewBy (IsPointIn name.now round 4) (pairs points.old) (pairs points.new)) }
{
    let digest = digest_of(name, round);
    for quarter in 0..QUARTERS {
        let point = Point {
            number: number_at(&digest, quarter),
            name: String::from_str(alloc, name)?,
        };
        points.insert(point)?;
    }
    Ok(())
}

/// Puts in a name and its points, or after a refusal neither.
pub(crate) fn put_name(
    alloc: Global,
    names: &mut BTreeSet<String>,
    points: &mut BTreeSet<Point>,
    name: &str,
) -> Result<(), AllocError>
    requires { IsApart name.now (pairs points.old) }
    ensures name { OnOk result (spelled names.new ≡ with_name name.now (spelled names.old)) }
    ensures ordered { OnOk result (IsStrictlySortedBy (slice_cmp nat_cmp) (spelled names.new)) }
    ensures points { OnOk result (GrewByAll (IsPointOf name.now) (pairs points.old) (pairs points.new)) }
    ensures no_name { OnErr result (spelled names.new ≡ spelled names.old) }
    ensures no_points { OnErr result (HaveSamePairs (pairs points.old) (pairs points.new)) }
{
    let put = put_all(alloc, names, points, name);
    if put.is_err() {
        drop_points(points, name);
    }
    put
}

/// Puts in the points of a name and then the name. After a refusal some points may be there.
fn put_all(
    alloc: Global,
    names: &mut BTreeSet<String>,
    points: &mut BTreeSet<Point>,
    name: &str,
) -> Result<(), AllocError>
    ensures name { OnOk result (spelled names.new ≡ with_name name.now (spelled names.old)) }
    ensures ordered { OnOk result (IsStrictlySortedBy (slice_cmp nat_cmp) (spelled names.new)) }
    ensures points { OnOk result (GrewByAll (IsPointOf name.now) (pairs points.old) (pairs points.new)) }
    ensures no_name { OnErr result (spelled names.new ≡ spelled names.old) }
    ensures partly { OnErr result (GrewBy (IsPointOf name.now) (pairs points.old) (pairs points.new)) }
{
    put_points(alloc, points, name)?;
    names.insert(String::from_str(alloc, name)?)?;
    Ok(())
}

/// Takes out the points of a name.
pub(crate) fn drop_points(points: &mut BTreeSet<Point>, name: &str)
    ensures { LostName name.now (pairs points.old) (pairs points.new) }
{
    points.retain(|point| point.name.as_str() != name);
}

/// The first point from a number on, or where there is none, the first of all.
pub(crate) fn first_from(alloc: Global, points: &BTreeSet<Point>, number: u32) -> Option<&Point>
    ensures { MatchOption result
        (pairs points.now ≡ []) (λ point. IsFirstFrom (pairs points.now) number (pair_of point.now)) }
{
    let from = Point {
        number,
        name: String::new(alloc),
    };
    match points.range(from..).next() {
        Some(point) => Some(point),
        None => points.first(),
    }
}
