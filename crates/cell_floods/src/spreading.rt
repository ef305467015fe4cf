//! Floods a [`CellNet`] from its lowest cells up: [`flood_by_height`].
//!
//! The nodes take turns, the lowest first. In its turn a source gets itself as label, any other
//! node the label of a node around it, and its level is its height. It waits if no node around it
//! has a label: it lies in a depression. A node that gets a label gives it, and its level, to the
//! nodes around it that wait, and these to others.
//!
//! Two labels meet where a node has a label and a node around it another one. Meetings are listed
//! unless the two labels have met before, if only by way of others.
//!
//! The order of the nodes carries no promise. So the end certifies the flood: there is none where a
//! node is lower than one whose turn came before, where a data cell has no label, or where a cell
//! that rose above its height has a lower one beside it.
ghost use Rattle.std.specs.Prelude.{◌≡◌, ◌<◌, ◌≤◌, [], ℕ, ℤ, All, IfOk, IfSome, IsSome, OnOk, Some, length, replicate, unwrap_or};
ghost use Rattle.std.specs.Bool.{OnTrue};
ghost use Rattle.terrain.specs.StoredCells.{no_data};
ghost use Rattle.floods.specs.Flood.{entry_of};
ghost use Rattle.floods.specs.Notes.{no_label, numbered_labels};
ghost use Rattle.floods.specs.Walk.{IsFlooded};
ghost use Rattle.cell_floods.specs.Cells.{IsCellJoin, source_of};
ghost use Rattle.cell_floods.specs.Spreading.{AreLabelled, HasLabel, HasSources, IsBesideLabel, IsHeld, IsNodeMeeting, IsNoneBelow, IsNumberOf, IsSound, Spreads, level_of, number_of, waiting};

use crate::cell_net::CellNet;
use crate::label_sets::LabelSets;
use crate::node_order::{first_height, nodes_by_height};
use crate::tile::Meeting;
use floods::Net;
use std::alloc::{AllocError, Global};
use terrain::{Cell, Height};

/// The number stored for a node without a label; [`floods::label_of`] decodes labels.
const NO_LABEL: u32 = u32::MAX;

/// The number stored for a source before its turn.
const SOURCE: u32 = u32::MAX - 1;

/// The number stored for a node that waits. It is above all labels, which are nodes.
const WAITING: u32 = u32::MAX - 2;

/// A node of the border, whose set has all sources inside the rim. These are end cells, and no way
/// from one end cell to another is of use.
const ENDS: u32 = 0;

/// The level of each node of a net, and the number that stores its label.
#[derive(Drop)]
pub(crate) struct NodeFlood {
    pub(crate) levels: Vec<Cell>,
    pub(crate) labels: Vec<u32>,
    /// Meetings of labels, which are given by their nodes.
    pub(crate) meetings: Vec<Meeting>,
    /// The lowest height.
    pub(crate) lowest: Height,
}

/// The levels and labels of a net's nodes while these take turns.
#[derive(Drop)]
struct Spreading<'a> {
    net: &'a CellNet,
    /// A node without a label has its height.
    levels: Vec<Cell>,
    /// Labels, [`NO_LABEL`], [`SOURCE`] or [`WAITING`].
    labels: Vec<u32>,
    /// Nodes that waited and have a label now, which they are to give to others.
    woken: Vec<u32>,
    meetings: Vec<Meeting>,
    /// The sets of labels that have met.
    sets: LabelSets,
}

/// What numbers the eight nodes around a node have.
struct NumbersAround {
    /// The least number, a label if one of the nodes has a label.
    least: u32,
    /// Whether one of the nodes has another label, or waits.
    differ: bool,
}

/// Makes each of some nodes a set of its own: `first`, and others by steps of `step`.
fn part_line(sets: &mut LabelSets, first: u32, step: u32, count: u32) {
    for index in 0..count {
        let node = first.wrapping_add(index.wrapping_mul(step));
        sets.set_parent(node, node);
    }
}

/// Takes the nodes of the rim out of the set of the end cells.
fn part_rim(sets: &mut LabelSets, net: &CellNet) {
    let (stride, nodes) = (net.stride(), net.nodes());
    // No net has a stride of 0: the greater of it and 1 spares a proof.
    let rows = nodes / stride.max(1);
    part_line(sets, stride, 1, stride);
    part_line(sets, nodes.wrapping_sub(stride.wrapping_mul(2)), 1, stride);
    part_line(sets, 1, stride, rows);
    part_line(sets, stride.wrapping_sub(2), stride, rows);
}

/// Returns what numbers these nodes have.
#[inline(always)]
fn numbers_around(labels: &[u32], around: &[u32; 8]) -> NumbersAround
    requires { All (λ b. b < length labels.now) around.now }
    ensures { result.least < waiting → IsNumberOf labels.now around.now result.least }
{
    let mut least = NO_LABEL;
    let mut most: u32 = 0;
    for node in around {
        // No branch: which nodes have labels is hard to guess.
        let number = labels[*node as usize];
        least = least.min(number);
        // `WAITING` becomes the greatest number, the other two the least.
        most = most.max(number.wrapping_add(2));
    }
    NumbersAround {
        least,
        differ: most != least.wrapping_add(2),
    }
}

impl<'a> Spreading<'a> {
    /// Makes the state before any node has a label.
    fn of_unlabelled(alloc: Global, net: &'a CellNet) -> Result<Self, AllocError>
        ensures net { IfOk result (λ x. x.net.now ≡ net.now) }
        ensures levels { IfOk result (λ x. x.levels.items ≡ net.now.cells) }
        ensures labels { IfOk result (λ x.
            x.labels.items ≡ replicate (length net.now.cells) no_label) }
        ensures meetings { IfOk result (λ x. x.meetings.items ≡ []) }
    {
        let count = net.cells().len();
        let mut levels = Vec::with_capacity(alloc, count)?;
        levels.extend_from_slice(net.cells())?;
        Ok(Spreading {
            net,
            levels,
            labels: vec![in alloc; NO_LABEL; count]?,
            woken: Vec::new(alloc),
            meetings: Vec::new(alloc),
            sets: LabelSets::of_nodes(alloc, net.nodes())?,
        })
    }

    /// Makes the state before the first turn.
    fn of_sources(alloc: Global, net: &'a CellNet) -> Result<Self, AllocError>
        ensures net { IfOk result (λ x. x.net.now ≡ net.now) }
        ensures levels { IfOk result (λ x. x.levels.items ≡ net.now.cells) }
        ensures sources { IfOk result (λ x.
            HasSources (length net.now.cells) net.now x.labels.items) }
        ensures meetings { IfOk result (λ x. x.meetings.items ≡ []) }
    {
        let mut spreading = Self::of_unlabelled(alloc, net)?;
        let count = net.nodes();
        let mut node = net.next_candidate(0);
        while node < count {
            if net.source(node).is_some() {
                spreading.labels[node as usize] = SOURCE;
                spreading.sets.set_parent(node, ENDS);
            }
            node = net.next_candidate(node + 1);
        }
        part_rim(&mut spreading.sets, net);
        Ok(spreading)
    }

    /// Lists the meeting of a label, at this level, with the label of node `to`, if the two have
    /// not met before.
    #[inline(never)]
    fn meet(&mut self, to: u32, label: u32, level: Cell) -> Result<(), AllocError>
        requires level { IsSome level }
        requires beside { IsBesideLabel (unwrap_or level no_data) label to self.old }
        requires labelled { HasLabel self.old.labels.items to }
        requires sound { IsSound (unwrap_or level no_data) self.old }
        ensures { OnOk result (Spreads (unwrap_or level no_data) self.old self.new) }
    {
        let own = self.labels[to as usize];
        if self.sets.unite(label, own) {
            self.meetings.push(Meeting {
                from: label,
                to: own,
                level: level.number(),
            })?;
        }
        Ok(())
    }

    /// Gives node `to`, which waits, this label and level, if its height is at most that level.
    #[inline(never)]
    fn wake(&mut self, to: u32, label: u32, level: Cell) -> Result<(), AllocError>
        requires level { IsSome level }
        requires beside { IsBesideLabel (unwrap_or level no_data) label to self.old }
        requires waits { number_of self.old.labels.items to ≡ waiting }
        requires sound { IsSound (unwrap_or level no_data) self.old }
        ensures { OnOk result (Spreads (unwrap_or level no_data) self.old self.new) }
    {
        let Some(height) = self.levels[to as usize].height() else {
            return Ok(());
        };
        if height <= level.number() {
            self.labels[to as usize] = label;
            self.levels[to as usize] = level;
            self.woken.push(to)?;
        }
        Ok(())
    }

    /// Gives node `to` the label and level of a node beside it, if it waits.
    /// If it has another label, the two labels meet, unless the sets tell that they have met:
    /// `set` is that of `label`.
    #[inline(always)]
    fn reach(&mut self, to: u32, label: u32, set: u32, level: Cell) -> Result<(), AllocError>
        requires to { to < length self.old.net.now.cells }
        requires level { IsSome level }
        requires beside { IsBesideLabel (unwrap_or level no_data) label to self.old }
        requires sound { IsSound (unwrap_or level no_data) self.old }
        ensures { OnOk result (Spreads (unwrap_or level no_data) self.old self.new) }
    {
        let own = self.labels[to as usize];
        if own == label || own > WAITING {
            return Ok(());
        }
        if own == WAITING {
            return self.wake(to, label, level);
        }
        if self.sets.set_of(own) == set {
            return Ok(());
        }
        self.meet(to, label, level)
    }

    /// Lets a labelled node reach the nodes around it.
    fn spread(&mut self, node: u32) -> Result<(), AllocError>
        requires labelled { HasLabel self.old.labels.items node }
        requires sound { IsSound (level_of self.old node) self.old }
        ensures { OnOk result (Spreads (level_of self.old node) self.old self.new) }
    {
        let level = self.levels[node as usize];
        let label = self.labels[node as usize];
        let set = self.sets.set_of(label);
        for to in self.net.around(node) {
            self.reach(to, label, set, level)?;
        }
        Ok(())
    }

    /// Returns whether a node has a label and this level.
    #[inline(always)]
    fn is_at(&self, node: u32, level: Cell) -> bool
        ensures { OnTrue result (HasLabel self.now.labels.items node
            × (entry_of self.now.levels.items node ≡ level)) }
    {
        match (
            self.labels.get(node as usize),
            self.levels.get(node as usize),
        ) {
            (Some(label), Some(own)) => *label < WAITING && own.is_level_with(level),
            _ => false,
        }
    }

    /// Lets a labelled node reach the nodes around it, and then all that this wakes.
    fn spread_from(&mut self, first: u32) -> Result<(), AllocError>
        requires labelled { HasLabel self.old.labels.items first }
        requires sound { IsSound (level_of self.old first) self.old }
        ensures { OnOk result (Spreads (level_of self.old first) self.old self.new) }
    {
        let level = self.levels[first as usize];
        let mut next = Some(first);
        while let Some(node) = next {
            if self.is_at(node, level) {
                self.spread(node)?;
            }
            next = self.woken.pop();
        }
        Ok(())
    }

    /// Returns the height of a node without a label.
    #[inline(always)]
    fn height_in_turn(&self, node: u32) -> Option<Height>
        ensures { IfSome result (λ height.
            (waiting ≤ number_of self.now.labels.items node)
            × (entry_of self.now.levels.items node ≡ Some height)) }
    {
        if *self.labels.get(node as usize)? < WAITING {
            return None;
        }
        self.levels.get(node as usize)?.height()
    }

    /// Lets a node without a label take its turn: the flood has come to its height.
    #[inline(always)]
    fn take_turn(&mut self, node: u32) -> Result<(), AllocError>
        requires free { waiting ≤ number_of self.old.labels.items node }
        requires data { IsSome (entry_of self.old.levels.items node) }
        requires sound { IsSound (level_of self.old node) self.old }
        ensures { OnOk result (Spreads (level_of self.old node) self.old self.new) }
    {
        if self.labels[node as usize] == SOURCE {
            self.labels[node as usize] = node;
            return self.spread_from(node);
        }
        let NumbersAround { least, differ } = numbers_around(&self.labels, &self.net.around(node));
        if least >= WAITING {
            self.labels[node as usize] = WAITING;
            return Ok(());
        }
        self.labels[node as usize] = least;
        if differ {
            return self.spread_from(node);
        }
        Ok(())
    }

    /// Returns whether each data cell has a label, and no other node has a number of another kind.
    fn are_labelled(&self) -> bool
        requires { length self.now.labels.items ≡ length self.now.net.now.cells }
        ensures { OnTrue result (AreLabelled self.now.net.now self.now.labels.items) }
    {
        let cells = self.net.cells();
        let mut all = true;
        for node in 0..self.labels.len() {
            // No branch, so that several nodes are tested at once.
            let is_gap = cells[node].height().is_none() & (self.labels[node] == NO_LABEL);
            all &= is_gap | (self.labels[node] < WAITING);
        }
        all
    }

    /// Returns whether a node has its height as level, or no lower node around it.
    #[inline(always)]
    fn is_held(&self, node: u32) -> bool
        requires node { node < length self.now.net.now.cells }
        requires size { length self.now.levels.items ≡ length self.now.net.now.cells }
        ensures { OnTrue result (IsHeld self.now.net.now self.now.levels.items node) }
    {
        let level = self.levels[node as usize];
        let cell = self.net.cells()[node as usize];
        level.is_level_with(cell)
            || cell.height().is_some() && self.has_none_below(&self.net.around(node), level)
    }

    /// Returns whether none of these nodes has a level below this one.
    #[inline(always)]
    fn has_none_below(&self, around: &[u32; 8], level: Cell) -> bool
        requires { All (λ b. b < length self.now.levels.items) around.now }
        ensures { OnTrue result
            (All (IsNoneBelow (unwrap_or level no_data) self.now.levels.items) around.now) }
    {
        let mut none = true;
        for node in around {
            none &= level.number() <= self.levels[*node as usize].number();
        }
        none
    }

    /// Returns whether each node has its height as level, or no lower node around it.
    fn are_held(&self) -> bool
        requires { length self.now.levels.items ≡ length self.now.net.now.cells }
        ensures { OnTrue result ((a : ℕ) → a < length self.now.net.now.cells →
            IsHeld self.now.net.now self.now.levels.items a) }
    {
        for node in 0..self.net.nodes() {
            if !self.is_held(node) {
                return false;
            }
        }
        true
    }

    /// Returns whether the levels and labels are those of the net's flood: their certificate.
    fn is_flooded(&self) -> bool
        requires labels { length self.now.labels.items ≡ length self.now.net.now.cells }
        requires levels { length self.now.levels.items ≡ length self.now.net.now.cells }
        ensures { OnTrue result (AreLabelled self.now.net.now self.now.labels.items
            × ((a : ℕ) → a < length self.now.net.now.cells →
            IsHeld self.now.net.now self.now.levels.items a)) }
    {
        self.are_labelled() && self.are_held()
    }
}

/// Finds the level and the label of each node, and meetings of the labels.
/// Returns `None` where the certificate of the levels and labels fails.
///
/// # Errors
///
/// [`AllocError`] if an allocation fails.
pub(crate) fn flood_by_height(alloc: Global, net: &CellNet) -> Result<Option<NodeFlood>, AllocError>
    ensures flooded { IfOk result (λ found. IfSome found (λ f.
        IsFlooded (IsCellJoin net.now) (source_of net.now) (length net.now.cells) f.levels.items
        (numbered_labels f.labels.items))) }
    ensures meetings { IfOk result (λ found. IfSome found (λ f.
        All (IsNodeMeeting net.now f.levels.items (numbered_labels f.labels.items))
        f.meetings.items)) }
{
    let order = nodes_by_height(alloc, net.cells())?;
    let mut spreading = Spreading::of_sources(alloc, net)?;
    let mut now = Height::MIN;
    for node in &order {
        let Some(height) = spreading.height_in_turn(*node) else {
            continue;
        };
        if height < now {
            return Ok(None);
        }
        now = height;
        spreading.take_turn(*node)?;
    }
    if !spreading.is_flooded() {
        return Ok(None);
    }
    Ok(Some(NodeFlood {
        levels: spreading.levels,
        labels: spreading.labels,
        meetings: spreading.meetings,
        lowest: first_height(net.cells(), &order),
    }))
}
