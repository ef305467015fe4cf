//! Finds the level and the label of each data cell of one tile: [`tile_flood`].
//!
//! [`flood_with_meetings`] finds where the labels meet too.
ghost use Rattle.std.specs.Prelude.{◌≡◌, All, IfOk, length, true, false, MatchOption, None, is_none, slice_index_or, ◌<◌};
ghost use Rattle.terrain.specs.Sinks.{with_sinks};
ghost use Rattle.tiles.specs.Cutting.{terrain_of, is_in_bounds, index_in};
ghost use Rattle.cell_floods.specs.Labels.{labels_by};
ghost use Rattle.cell_floods.specs.Spreading.{AreFlooded, HasSizeOf};
ghost use Rattle.cell_floods.specs.TileFlood.{IsFlood, IsMeeting, IsTileFlood, level_in, label_in, levels_where};

use crate::cell_net::{CellNet, without_border};
use crate::ends::end_heights;
use crate::labels::{IndexedLabels, Labels, indexed_meetings, labels_of};
use crate::levels::Levels;
use crate::spreading::{NodeFlood, flood_by_height};
use floods::{FloodedNet, flood_net};
use std::alloc::Global;
use std::marker::Model;
use terrain::{Cell, Height, NoMemory, Place};
use tiles::{Bounds, TileView};

/// The level and the label of each data cell of a tile, in the tile's row order.
/// A level, in units, is the least crest of the cell's paths inside the tile. Paths end on the
/// tile's rim or at an end cell. The label is the place where a path of that crest ends.
#[derive(Drop)]
pub struct TileFlood {
    bounds: Bounds,
    /// An entry for each cell: its level, if it has a label.
    heights: Levels,
    labels: Labels,
    /// For each entry of the table of labels: the height of an end cell, else no data.
    ends: Vec<Cell>,
    ghost whole: { length heights ≡ length labels.indexes },
}

/// A meeting of two labels: two neighbouring cells have them.
/// Labels are given by their indexes in the tile's table.
#[derive(Clone, Copy, Debug, PartialEq, Eq)]
pub struct Meeting {
    pub from: u32,
    pub to: u32,
    /// The greater of the levels of the two cells, in units.
    pub level: Height,
}

/// The flood of a tile, and meetings of its labels: enough of them for each label's least crest.
/// No clause promises that they are enough.
#[derive(Drop)]
pub struct FloodWithMeetings {
    pub flood: TileFlood,
    pub meetings: Vec<Meeting>,
}

impl Model for TileFlood {
    ghost use Rattle.cell_floods.specs.TileFlood.{Flood, IsFlood, flood_of};

    ghost Value = { Flood };

    ghost view = { λ f. flood_of f.bounds f.heights f.labels f.ends.items };

    ghost invariant = { λ f. IsFlood (flood_of f.bounds f.heights f.labels f.ends.items) };
}

impl TileFlood {
    /// Returns the first row and column of the tile, and its size.
    #[inline(always)]
    pub fn bounds(&self) -> Bounds
        ensures value { result ≡ self.now.bounds }
        ensures lawful { IsFlood self.now }
    {
        self.bounds
    }

    /// Returns the level at a place; `None` outside the tile and without data.
    #[inline]
    pub fn level(&self, place: Place) -> Option<Height>
        ensures { result ≡ level_in self.now place }
    {
        let index = self.index_of(place)?;
        self.level_at(index)
    }

    /// Returns the label at a place; `None` exactly where there is no level.
    #[inline(always)]
    pub fn label(&self, place: Place) -> Option<Place>
        ensures value { result ≡ label_in self.now place }
        ensures level { is_none result ≡ is_none (level_in self.now place) }
    {
        let index = self.index_of(place)?;
        self.label_at(index)
    }

    /// Returns a place's index in the tile's row order; `None` outside the tile.
    #[inline(always)]
    pub fn index_of(&self, place: Place) -> Option<usize>
        ensures { MatchOption result (is_in_bounds self.now.bounds place ≡ false)
            (λ index. (is_in_bounds self.now.bounds place ≡ true)
            × (index ≡ index_in self.now.bounds place) × (index < length self.now.labels)) }
    {
        if self.bounds.contains(place) {
            Some(self.bounds.index_of(place))
        } else {
            None
        }
    }

    /// Returns the level at an index of the tile's row order; `None` without a label.
    #[inline(always)]
    pub fn level_at(&self, index: usize) -> Option<Height>
        requires { index < length self.now.labels }
        ensures value { result ≡ slice_index_or self.now.levels index None }
        ensures label { is_none result ≡ is_none (slice_index_or self.now.labels index None) }
    {
        if self.labels.has(index) {
            Some(self.heights.at(index))
        } else {
            None
        }
    }

    /// Returns the label at an index of the tile's row order; `None` without a level.
    #[inline(always)]
    pub fn label_at(&self, index: usize) -> Option<Place>
        requires { index < length self.now.labels }
        ensures value { result ≡ slice_index_or self.now.labels index None }
        ensures level { is_none result ≡ is_none (slice_index_or self.now.levels index None) }
    {
        self.labels.at(index)
    }

    /// Returns the levels of the tile's cells, in its row order.
    /// The entry of a cell without a label is not a level.
    #[inline(always)]
    pub fn heights(&self) -> &Levels
        ensures levels { self.now.levels ≡ levels_where self.now.labels result.now }
        ensures size { length result.now ≡ length self.now.labels }
    {
        &self.heights
    }

    /// Returns the labels of the tile's cells: a table, and each cell's index into it.
    #[inline(always)]
    pub fn labels(&self) -> &Labels
        ensures value { result.now ≡ self.now.table }
        ensures labels { self.now.labels ≡ labels_by result.now.places result.now.indexes }
        ensures lawful { IsFlood self.now }
    {
        &self.labels
    }

    /// Returns the height of each label that is an end cell, in the order of the table.
    /// Any other entry of the table has no data here.
    #[inline(always)]
    pub fn ends(&self) -> &[Cell]
        ensures value { result.now ≡ self.now.ends }
        ensures lawful { IsFlood self.now }
    {
        &self.ends
    }
}

/// The levels and labels of a net's nodes inside its border.
#[derive(Drop)]
struct InnerFlood {
    heights: Levels,
    /// The number that stores each cell's label, a node of the net.
    nodes: Vec<u32>,
    /// Meetings of labels, which are given by their nodes.
    meetings: Vec<Meeting>,
}

/// Floods a tile's net by the queue of [`flood_net`], which needs no certificate.
#[inline(never)]
fn flood_by_queue(alloc: Global, net: &CellNet, bounds: Bounds) -> Result<InnerFlood, NoMemory>
    requires { HasSizeOf bounds net.now }
    ensures { IfOk result (λ f.
        AreFlooded net.now bounds f.heights f.nodes.items f.meetings.items) }
{
    let FloodedNet { levels, labels } = flood_net(alloc, net)?;
    let heights = without_border(alloc, levels.heights(), bounds.cols, bounds.rows)?;
    Ok(InnerFlood {
        heights: Levels::of_heights(heights),
        nodes: without_border(alloc, labels.numbers(), bounds.cols, bounds.rows)?,
        meetings: Vec::new(alloc),
    })
}

/// Floods the net of a tile with these bounds: by height, or by the queue if that has no result.
fn inner_flood(alloc: Global, net: &CellNet, bounds: Bounds) -> Result<InnerFlood, NoMemory>
    requires { HasSizeOf bounds net.now }
    ensures { IfOk result (λ f.
        AreFlooded net.now bounds f.heights f.nodes.items f.meetings.items) }
{
    let Some(found) = flood_by_height(alloc, net)? else {
        return flood_by_queue(alloc, net, bounds);
    };
    let NodeFlood {
        levels,
        labels,
        meetings,
        lowest,
    } = found;
    Ok(InnerFlood {
        heights: Levels::of_nodes(alloc, &levels, lowest, bounds.cols, bounds.rows)?,
        nodes: without_border(alloc, &labels, bounds.cols, bounds.rows)?,
        meetings,
    })
}

/// Finds the level and the label of each data cell of a tile, and meetings of the labels.
///
/// See [`tile_flood`] for where paths end.
///
/// # Errors
///
/// [`NoMemory`] if an allocation fails.
pub fn flood_with_meetings(
    alloc: Global,
    view: &TileView<'_, Cell>,
    sinks: &[Place],
) -> Result<FloodWithMeetings, NoMemory>
    ensures flood { IfOk result (λ f.
        IsTileFlood (with_sinks (terrain_of view.now) sinks.now) view.now.cutting view.now.tile
        f.flood) }
    ensures meetings { IfOk result (λ f.
        All (IsMeeting (with_sinks (terrain_of view.now) sinks.now) f.flood) f.meetings.items) }
{
    let bounds = view.bounds();
    let net = CellNet::of_view(alloc, view, sinks)?;
    let InnerFlood {
        heights,
        nodes,
        meetings,
    } = inner_flood(alloc, &net, bounds)?;
    let sinks = net.into_sinks();
    let IndexedLabels { labels, met } = labels_of(alloc, bounds, nodes)?;
    let meetings = indexed_meetings(alloc, met, meetings)?;
    let ends = end_heights(alloc, view, &sinks, &labels)?;
    Ok(FloodWithMeetings {
        flood: TileFlood {
            bounds,
            heights,
            labels,
            ends,
        },
        meetings,
    })
}

/// Finds the level and the label of each data cell of a tile.
///
/// Paths end on the rim, at edge cells, and at those of `sinks` that lie in the tile.
///
/// # Errors
///
/// [`NoMemory`] if an allocation fails.
///
/// # Examples
///
/// ```ignore
/// let view = tiling.view(grid.cells(), tile);
/// let flood = tile_flood(alloc, &view, grid.sinks())?;
/// let level = flood.level(place);
/// ```
pub fn tile_flood(
    alloc: Global,
    view: &TileView<'_, Cell>,
    sinks: &[Place],
) -> Result<TileFlood, NoMemory>
    ensures { IfOk result (λ f.
        IsTileFlood (with_sinks (terrain_of view.now) sinks.now) view.now.cutting view.now.tile f) }
{
    Ok(flood_with_meetings(alloc, view, sinks)?.flood)
}
