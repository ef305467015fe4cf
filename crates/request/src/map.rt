//! [`Map`]: which map is requested, with its gauges or observers, or which [`DrainageMap`]s.
ghost use Rattle.std.specs.Prelude.{◌↔◌, Contains, IsTrue};

use terrain::{Observer, Place};

/// A drainage map that may be requested together with others.
#[derive(Clone, Copy, Debug, PartialEq, Eq)]
pub enum DrainageMap {
    Fill,
    Flow,
    Accumulate,
    Basins,
    Catchments,
}

impl DrainageMap {
    /// Returns whether the map is one of `maps`.
    pub fn is_one_of(self, maps: &[DrainageMap]) -> bool
        ensures { IsTrue result ↔ Contains maps.now self }
    {
        maps.contains(&self)
    }
}

/// A requested map, with its gauges or observers, or several.
#[derive(Drop)]
pub enum Map {
    /// Filled heights.
    Fill,
    /// D8 direction codes.
    Flow,
    /// Flow accumulation: how many other cells drain through each cell.
    Accumulate,
    /// Basins: the number of the outlet to which each cell drains.
    Basins,
    /// Catchments: the number of the first gauge on each cell's flow path, or 0.
    Catchments {
        gauges: Vec<Place>,
    },
    /// Viewshed: how many of the observers see each cell.
    ///
    /// `target` is a height above the ground in units of 10^-scale, `radius` a number of cells.
    View {
        observers: Vec<Observer>,
        target: u32,
        radius: u32,
    },
    /// Rise: the least height above each cell's ground at which an observer sees a target.
    ///
    /// `radius` is a number of cells.
    Rise {
        observers: Vec<Observer>,
        radius: u32,
    },
    /// Drainage maps made together, each as [`Map`] defines it, and written in this order.
    ///
    /// `gauges` are those of the catchments. The command line refuses an empty list, a map named
    /// twice, catchments without a gauge, and gauges without catchments.
    Several {
        maps: Vec<DrainageMap>,
        gauges: Vec<Place>,
    },
}
