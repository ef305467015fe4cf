//! The spill graph of all tiles, with each label given by its place: [`SpillGraph`].
//!
//! [`SpillGraph::gather`] makes the graph from the floods of all tiles, which have the levels and
//! labels of cells. [`SpillGraph::levels`] finds each label's least crest to an end cell.
ghost use Rattle.std.specs.Prelude.{◌≡◌, ◌<◌, ◌≤◌, ◌*◌, ℕ, length, map, IfOk, slice_index_or};
ghost use Rattle.terrain.specs.Raster.{Terrain};
ghost use Rattle.fill.specs.Parts.{BeginAt};
ghost use Rattle.fill.specs.SpillGraph.{AreFloods, IsGraphOf, AreLevelsOf};
ghost use Rattle.fill.specs.Gathering.{AreRising, turned, arc_of};

use crate::cell_labels::NumberedFloods;
use crate::gathering::graph_joins;
use crate::numbers::first_numbers;
use crate::placing::{label_nodes, lowest_joins, placed_joins};
use crate::sources::label_sources;
use cell_floods::TileFlood;
use floods::{Flooded, Net, Spill, flood};
use smallvec::SmallVec;
use std::alloc::{AllocError, Global};
use std::marker::Model;
use terrain::{Height, NoMemory};
use tiles::Tiling;

/// Two joined labels, and the height in units at which water passes between them.
/// A label is given by its number, which counts the entries of all tiles' tables, or by its node.
/// Its node is the index of its place in row order of the grid.
#[derive(Clone, Copy, Debug, PartialEq, Eq, PartialOrd, Ord)]
pub struct Join {
    pub from: u32,
    pub to: u32,
    pub height: Height,
}

impl Join {
    /// Returns the join with its labels exchanged.
    #[inline(always)]
    pub(crate) fn turned(self) -> Join
        ensures { result ≡ turned self }
    {
        Join {
            from: self.to,
            to: self.from,
            height: self.height,
        }
    }

    /// Returns the join's arc from label `from` to label `to`.
    #[inline(always)]
    pub(crate) fn arc(self) -> Spill
        ensures { result ≡ arc_of self }
    {
        Spill {
            to: self.to,
            height: self.height,
        }
    }
}

/// The spill graph: the labels of all tiles as a net, by their places.
/// A node is a place's index in row order of the grid. Two labels are joined if neighbouring cells
/// have them. Two such cells meet at the greater of their levels. A join has the least height at
/// which cells of its labels meet. Labels that are end cells are sources.
#[derive(Drop)]
pub struct SpillGraph {
    tiling: Tiling,
    /// Each join in both directions, in the order of the labels.
    joins: Vec<Join>,
    sources: Vec<Option<Height>>,
}

impl Model for SpillGraph {
    ghost use Rattle.fill.specs.SpillGraph.{Graph};

    ghost Value = { Graph };

    ghost use Rattle.tiles.specs.Cutting.{IsCutting};
    ghost use Rattle.fill.specs.Parts.{IsGraph, graph_with};

    ghost view = { λ g. graph_with g.tiling g.joins.items g.sources.items };

    ghost invariant = { λ g. IsCutting g.tiling
        × IsGraph (graph_with g.tiling g.joins.items g.sources.items) };
}

/// Returns the index of the first join from `node` or from a node after it.
/// Returns the length of `joins`, which are in order, if there is no such join.
fn first_from(joins: &[Join], node: u32) -> usize
    requires { AreRising joins.now }
    ensures { BeginAt joins.now node result }
{
    let mut low = 0;
    let mut high = joins.len();
    while low < high {
        let middle = low + (high - low) / 2;
        if joins[middle].from < node {
            low = middle + 1;
        } else {
            high = middle;
        }
    }
    low
}

/// Returns the index past the joins from `node`, which begin at index `start`.
fn end_of(joins: &[Join], start: usize, node: u32) -> usize
    requires rising { AreRising joins.now }
    requires begin { BeginAt joins.now node start }
    ensures from { start ≤ result }
    ensures few { result ≤ length joins.now }
    ensures below { (k : ℕ) (d : _) → k < result → (slice_index_or joins.now k d).from ≤ node }
    ensures above { (k : ℕ) (d : _) → result ≤ k → k < length joins.now →
        node < (slice_index_or joins.now k d).from }
{
    let mut end = start;
    while end < joins.len() && joins[end].from == node {
        end += 1;
    }
    end
}

fn arcs_of(alloc: Global, joins: &[Join]) -> Result<SmallVec<Spill, 8>, AllocError>
    ensures { IfOk result (λ v. v.items ≡ map arc_of joins.now) }
{
    let mut arcs = SmallVec::new(alloc);
    for join in joins {
        arcs.push(join.arc())?;
    }
    Ok(arcs)
}

impl Net for SpillGraph {
    ghost use Rattle.fill.specs.SpillGraph.{HasJoin, source_in};

    ghost node_count = { λ g. g.nodes };

    ghost joins = { HasJoin };

    ghost source_height = { source_in };

    ghost joined_inside = { λ g a b h j. j.to_node };

    ghost joined_back = { λ g a b h j.
        record { from_node = j.to_node; to_node = j.from_node; there = j.back; back = j.there } };

    #[inline]
    fn nodes(&self) -> u32 {
        self.tiling.cols() * self.tiling.rows()
    }

    fn neighbours(&self, alloc: Global, node: u32) -> Result<SmallVec<Spill, 8>, NoMemory> {
        let start = first_from(&self.joins, node);
        let end = end_of(&self.joins, start, node);
        Ok(arcs_of(alloc, &self.joins[start..end])?)
    }

    #[inline]
    fn source(&self, node: u32) -> Option<Height> {
        self.sources[node as usize]
    }
}

impl SpillGraph {
    /// Makes the spill graph of all tiles. `floods` is in tile order.
    ///
    /// # Errors
    ///
    /// [`NoMemory`] if an allocation fails.
    ///
    /// # Examples
    ///
    /// ```ignore
    /// let graph = SpillGraph::gather(alloc, &tiling, &floods)?;
    /// let levels = graph.levels(alloc)?;
    /// ```
    pub fn gather(
        alloc: Global,
        tiling: &Tiling,
        floods: &[TileFlood],
    ) -> Result<SpillGraph, NoMemory>
        requires { (t : Terrain) × AreFloods t tiling.now floods.now }
        ensures { IfOk result (λ g. (t : Terrain)
            → AreFloods t tiling.now floods.now → IsGraphOf t tiling.now floods.now g) }
    {
        let firsts = first_numbers(alloc, tiling, floods)?;
        let tiles = NumberedFloods {
            tiling,
            floods,
            firsts: &firsts,
        };
        let gathered = graph_joins(alloc, &tiles)?;
        let nodes = label_nodes(alloc, tiling, floods)?;
        let placed = placed_joins(alloc, &gathered, &nodes)?;
        let joins = lowest_joins(alloc, placed)?;
        let sources = label_sources(alloc, tiling, floods)?;
        Ok(SpillGraph {
            tiling: *tiling,
            joins,
            sources,
        })
    }

    /// Returns the least crest from each label to an end cell.
    /// The list is in row order of the grid. An entry is `None` if its place is no label. It is
    /// `None` too for a label that is no end cell and from which no joins lead to an end cell.
    ///
    /// # Errors
    ///
    /// [`NoMemory`] if an allocation fails.
    pub fn levels(&self, alloc: Global) -> Result<Vec<Option<Height>>, NoMemory>
        ensures { IfOk result (λ v. AreLevelsOf self.now v.items) }
    {
        let Flooded { level, .. } = flood(alloc, self)?;
        Ok(level)
    }
}
