//! Finds the first fault of observers, target height and radius.
ghost use Rattle.std.specs.Prelude.{◌≡◌, ◌<◌, ◌≤◌, length, IfSome};
ghost use Rattle.std.specs.List.{position_from};
ghost use Rattle.sight.specs.Viewshed.{most_observers};
ghost use Rattle.terrain.specs.Faults.{first_fault};
ghost use Rattle.sight.specs.Refusals.{is_high, observer_fault, observers_fault};

use crate::fault::SightFault;
use terrain::{Grid, Observer, Place};

const MOST_OBSERVERS: usize = 1_024;

/// The greatest height of an eye or a target above its ground, in units.
const HIGHEST_EYE: u32 = 1_000_000;

/// The greatest radius, in cells.
const LONGEST_RADIUS: u32 = 8_192;

/// Returns the index of the first observer whose eye is too high.
fn bad_eye(observers: &[Observer]) -> Option<usize>
    ensures value { result ≡ position_from (λ (o : Observer). is_high o.eye) 0 observers.now }
    ensures below { IfSome result (λ i. i < length observers.now) }
{
    observers.iter().position(|o| o.eye > HIGHEST_EYE)
}

fn observer_fault_at(grid: &Grid, observer: &Observer, index: u32) -> Option<SightFault>
    ensures { result ≡ observer_fault grid.now.terrain index observer.now }
{
    if observer.row >= grid.rows() || observer.col >= grid.cols() {
        return Some(SightFault::Outside(index));
    }
    let place = Place {
        row: observer.row,
        col: observer.col,
    };
    if grid.at(place).is_none() {
        return Some(SightFault::OnNodata(index));
    }
    None
}

/// Returns the fault of the first observer outside the grid or on NODATA.
fn bad_place(grid: &Grid, observers: &[Observer]) -> Option<SightFault>
    requires { length observers.now ≤ most_observers }
    ensures { result ≡ first_fault (observer_fault grid.now.terrain) 0 observers.now }
{
    for (index, observer) in observers.iter().enumerate() {
        let fault = observer_fault_at(grid, observer, index as u32);
        if fault.is_some() {
            return fault;
        }
    }
    None
}

/// Returns the first fault of observers, target height and radius over a grid.
pub(crate) fn first_fault(
    grid: &Grid,
    observers: &[Observer],
    target_height: u32,
    radius: u32,
) -> Option<SightFault>
    ensures { result ≡ observers_fault grid.now.terrain observers.now target_height radius }
{
    if observers.len() > MOST_OBSERVERS {
        return Some(SightFault::TooManyObservers);
    }
    if target_height > HIGHEST_EYE {
        return Some(SightFault::BadEye(None));
    }
    if let Some(index) = bad_eye(observers) {
        return Some(SightFault::BadEye(Some(index as u32)));
    }
    if radius == 0 || radius > LONGEST_RADIUS {
        return Some(SightFault::BadRadius);
    }
    bad_place(grid, observers)
}
