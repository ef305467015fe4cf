//! The labels of a tile's cells: a table of places, and for each cell an index into the table.
ghost use Rattle.std.specs.Prelude.{◌≡◌, ◌+◌, ◌*◌, ◌^◌, ◌<◌, ◌≤◌, ◌∷◌, ◌++◌, [], None, Some, map, length, is_some, slice_index_or, All, IfOk, IfSome, OnOk};
ghost use Rattle.tiles.specs.Cutting.{IsWithinLimits};
ghost use Rattle.cell_floods.specs.Cells.{place_of_node};
ghost use Rattle.floods.specs.Notes.{no_label, numbered_labels};
ghost use Rattle.cell_floods.specs.Indexes.{indexes_stored, places_of};
ghost use Rattle.cell_floods.specs.Labels.{IsTable, AreMet, AreNodesBelow, IsIndexed, IsIndexedOf, IsListedAt, label_of_node, labels_by};

use crate::tile::Meeting;
use floods::label_of;
use std::alloc::{AllocError, Global};
use std::marker::Model;
use terrain::Place;
use tiles::Bounds;

/// The index of cells without a label: the first entry of the table, `None`.
const NO_LABEL: u32 = 0;

/// The length of the longest table whose indexes take 2 bytes.
const SHORT: usize = 1 << 16;

/// The index of each cell's label in a table, in as many bytes as the table's length needs.
#[derive(Drop)]
pub(crate) enum Indexes {
    Short(Vec<u16>),
    Long(Vec<u32>),
}

/// The labels of a tile by their indexes: first `None`, then places.
#[derive(Drop)]
struct Table {
    bounds: Bounds,
    /// Numbers that [`label_of`] decodes to nodes of the tile's net: 4 bytes where a place takes 8.
    numbers: Vec<u32>,
}

/// The labels of a tile's cells: a table of places, and each cell's index into it.
#[derive(Drop)]
pub struct Labels {
    table: Table,
    indexes: Indexes,
    ghost limits: { IsWithinLimits table.bounds },
    ghost fits: { IsTable (places_of table) (indexes_stored indexes) },
}

/// The labels of a tile's cells, and the index in their table for each node of the tile's net.
#[derive(Drop)]
pub(crate) struct IndexedLabels {
    pub(crate) labels: Labels,
    /// For each node its index, if it is a label, else 0.
    pub(crate) met: Vec<u32>,
}

/// Returns the place of a node of the tile's net.
#[inline(always)]
fn place_of(bounds: Bounds, node: u32) -> Place
    requires { (bounds.top ≤ 4096) × (bounds.left ≤ 4096) × (bounds.cols ≤ 4096) }
    ensures { result ≡ place_of_node bounds.top bounds.left bounds.cols node }
{
    let stride = bounds.cols + 2;
    // No label is a border node, so nothing saturates. A plain difference needs a proof of that.
    Place {
        row: (bounds.top + node / stride).saturating_sub(1),
        col: (bounds.left + node % stride).saturating_sub(1),
    }
}

impl Table {
    /// Makes a table without labels, with capacity for one at each rim cell.
    fn without_labels(alloc: Global, bounds: Bounds) -> Result<Self, AllocError>
        requires { IsWithinLimits bounds }
        ensures bounds { IfOk result (λ t. t.bounds ≡ bounds) }
        ensures places { IfOk result (λ t. places_of t ≡ None ∷ []) }
    {
        let lines = bounds.rows as usize + bounds.cols as usize;
        let mut numbers = Vec::with_capacity(alloc, 2 * lines)?;
        numbers.push(u32::MAX)?;
        Ok(Table { bounds, numbers })
    }

    /// Returns the label at an index; `None` for the first entry.
    #[inline(always)]
    fn place(&self, index: usize) -> Option<Place>
        requires limits { IsWithinLimits self.now.bounds }
        requires index { index < length (places_of self.now) }
        ensures { result ≡ slice_index_or (places_of self.now) index None }
    {
        let node = label_of(self.numbers[index])?;
        Some(place_of(self.bounds, node))
    }

    /// Adds a label, given by its node.
    #[inline(always)]
    fn push(&mut self, node: u32) -> Result<(), AllocError>
        requires { node < no_label }
        ensures bounds { self.new.bounds ≡ self.old.bounds }
        ensures places { OnOk result (places_of self.new
            ≡ places_of self.old ++ label_of_node self.old.bounds (Some node) ∷ []) }
    {
        self.numbers.push(node)?;
        Ok(())
    }
}

impl Model for Labels {
    ghost use Rattle.cell_floods.specs.Labels.{LabelTable};
    ghost use Rattle.cell_floods.specs.Indexes.{indexes_stored, places_of};

    ghost Value = { LabelTable };

    ghost view = { λ l.
        record { places = places_of l.table; indexes = indexes_stored l.indexes } };
}

impl Labels {
    /// Returns how many entries the table has: `None` for cells without a label, then the labels.
    #[inline(always)]
    pub fn count(&self) -> usize
        ensures value { result ≡ length self.now.places }
        ensures table { IsTable self.now.places self.now.indexes }
    {
        self.table.numbers.len()
    }

    /// Returns the label at an index of the table; `None` for the first entry.
    #[inline(always)]
    pub fn place(&self, index: usize) -> Option<Place>
        requires { index < length self.now.places }
        ensures { result ≡ slice_index_or self.now.places index None }
    {
        self.table.place(index)
    }

    /// Returns the index in the table of the label of a cell, given by its index in row order.
    #[inline(always)]
    pub fn index(&self, cell: usize) -> u32
        requires { cell < length self.now.indexes }
        ensures { result ≡ slice_index_or self.now.indexes cell 0 }
    {
        match &self.indexes {
            Indexes::Short(indexes) => indexes[cell] as u32,
            Indexes::Long(indexes) => indexes[cell],
        }
    }

    /// Returns whether the cell at an index has a label, without reading the table.
    #[inline(always)]
    pub(crate) fn has(&self, index: usize) -> bool
        requires { index < length self.now.indexes }
        ensures { result
            ≡ is_some (slice_index_or (labels_by self.now.places self.now.indexes) index None) }
    {
        // The prover learns from a field that the table's first entry alone is `None`.
        let _ = &self.table;
        self.index(index) != NO_LABEL
    }

    /// Returns the label of the cell at an index of the tile's row order, if any.
    #[inline(always)]
    pub(crate) fn at(&self, index: usize) -> Option<Place>
        requires { index < length self.now.indexes }
        ensures { result ≡ slice_index_or (labels_by self.now.places self.now.indexes) index None }
    {
        self.table.place(self.index(index) as usize)
    }
}

/// Returns the index of a label in the table, 0 if `node` is `None`.
/// A label that was not met before is added. `met` has the index for each node met before, and 0
/// for other nodes.
#[inline(always)]
fn index_of_label(table: &mut Table, met: &mut [u32], node: Option<u32>) -> Result<u32, AllocError>
    requires few { length (places_of table.old) < 2 ^ 32 }
    requires node { IfSome node (λ a. (a < length met.old) × (a < no_label)) }
    requires first { slice_index_or (places_of table.old) 0 None ≡ None }
    requires met { AreMet table.old.bounds met.old (places_of table.old) }
    ensures bounds { table.new.bounds ≡ table.old.bounds }
    ensures index { IfOk result (λ index. IsListedAt index (label_of_node table.old.bounds node)
        (places_of table.old) (places_of table.new)) }
    ensures met { OnOk result (AreMet table.old.bounds met.new (places_of table.new)) }
{
    let Some(node) = node else {
        return Ok(NO_LABEL);
    };
    let index = met[node as usize];
    if index != NO_LABEL {
        return Ok(index);
    }
    let index = table.numbers.len() as u32;
    table.push(node)?;
    met[node as usize] = index;
    Ok(index)
}

/// Returns indexes in 2 bytes each.
fn short_indexes(alloc: Global, indexes: &[u32]) -> Result<Vec<u16>, AllocError>
    requires { All (λ k. k < SHORT) indexes.now }
    ensures { IfOk result (λ v. v.items ≡ indexes.now) }
{
    // A loop of writes at indexes takes several at once, one of `push` does not.
    let mut short = vec![in alloc; 0; indexes.len()]?;
    for cell in 0..indexes.len() {
        short[cell] = indexes[cell] as u16;
    }
    Ok(short)
}

/// Stores indexes into a table of this length.
fn stored_indexes(alloc: Global, length: usize, indexes: Vec<u32>) -> Result<Indexes, AllocError>
    requires { All (λ k. k < length) indexes.items }
    ensures { IfOk result (λ stored. indexes_stored stored ≡ indexes.items) }
{
    if length > SHORT {
        return Ok(Indexes::Long(indexes));
    }
    Ok(Indexes::Short(short_indexes(alloc, &indexes)?))
}

/// Makes the table of a tile's labels, and each cell's index into it.
/// `nodes` has for each cell a number that [`label_of`] decodes: to the cell's label, as a node of
/// the tile's net, or to `None`.
pub(crate) fn labels_of(
    alloc: Global,
    bounds: Bounds,
    nodes: Vec<u32>,
) -> Result<IndexedLabels, AllocError>
    requires limits { IsWithinLimits bounds }
    requires size { length nodes.items ≡ bounds.rows * bounds.cols }
    requires nodes { AreNodesBelow ((bounds.rows + 2) * (bounds.cols + 2))
        (numbered_labels nodes.items) }
    ensures labels { IfOk result (λ x.
        labels_by x.labels.places x.labels.indexes
        ≡ map (label_of_node bounds) (numbered_labels nodes.items)) }
    ensures table { IfOk result (λ x. IsTable x.labels.places x.labels.indexes) }
    ensures met { IfOk result (λ x. AreMet bounds x.met.items x.labels.places) }
{
    let count = (bounds.rows as usize + 2) * (bounds.cols as usize + 2);
    let mut met = vec![in alloc; NO_LABEL; count]?;
    let mut table = Table::without_labels(alloc, bounds)?;
    // Each index replaces a cell's node, which spares a list of 4 bytes a cell.
    let mut indexes = nodes;
    for index in indexes.iter_mut() {
        *index = index_of_label(&mut table, &mut met, label_of(*index))?;
    }
    let indexes = stored_indexes(alloc, table.numbers.len(), indexes)?;
    Ok(IndexedLabels {
        labels: Labels { table, indexes },
        met,
    })
}

/// Returns the index in the table of a label, given by its node; `None` if it is no cell's label.
#[inline(always)]
fn index_of_node(met: &[u32], node: u32) -> Option<u32>
    ensures { IfSome result (λ index. (0 < index) × (slice_index_or met.now node 0 ≡ index)) }
{
    let index = *met.get(node as usize)?;
    if index == NO_LABEL {
        return None;
    }
    Some(index)
}

/// Returns a meeting of nodes as a meeting of their indexes in the table.
#[inline(always)]
fn indexed(met: &[u32], meeting: Meeting) -> Option<Meeting>
    ensures { IfSome result (IsIndexed met.now meeting) }
{
    Some(Meeting {
        from: index_of_node(met, meeting.from)?,
        to: index_of_node(met, meeting.to)?,
        level: meeting.level,
    })
}

/// Returns meetings of nodes as meetings of their indexes in the table of labels.
/// `met` has each label's index by its node, and 0 for other nodes.
pub(crate) fn indexed_meetings(
    alloc: Global,
    met: Vec<u32>,
    meetings: Vec<Meeting>,
) -> Result<Vec<Meeting>, AllocError>
    ensures { IfOk result (λ v. All (IsIndexedOf met.items meetings.items) v.items) }
{
    let mut found = Vec::with_capacity(alloc, meetings.len())?;
    for meeting in &meetings {
        if let Some(meeting) = indexed(&met, *meeting) {
            found.push(meeting)?;
        }
    }
    Ok(found)
}
