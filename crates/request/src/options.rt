//! [`Options`]: a map and its options, with tile side, workers and scale within limits.
ghost use Rattle.std.specs.Prelude.{◌≡◌, [], false, IfSome, IfNone, IfOk, IfErr};
ghost use Rattle.request.specs.Request.{AreLimits, IsSightMap};

use crate::map::Map;
use std::marker::Model;
use terrain::Place;

/// The greatest side of a tile, in cells.
pub(crate) const LONGEST_SIDE: u32 = 4_096;

/// The greatest number of workers.
pub(crate) const MOST_WORKERS: u32 = 64;

/// The greatest scale.
pub(crate) const MOST_DECIMALS: u8 = 6;

/// A requested map with its options; side, workers and scale are within limits.
///
/// Holds tile side, workers, scale, named sinks, and whether progress is reported.
///
/// # Examples
///
/// ```ignore
/// let options = Options::new(Map::Fill, 256, 1, 0).ok_or("options")?;
/// let options = options.with_progress(true);
/// ```
#[derive(Drop)]
pub struct Options {
    map: Map,
    tile: u32,
    workers: u32,
    scale: u8,
    // `None` until sinks are given, as `new` has no allocator.
    sinks: Option<Vec<Place>>,
    progress: bool,
}

impl Model for Options {
    ghost use Rattle.std.specs.Prelude.{[]};
    ghost use Rattle.std.specs.Option.{option_map_or};
    ghost use Rattle.request.specs.Request.{Request, IsRequest};

    ghost Value = { Request };

    ghost view = { λ o. record {
      map = o.map;
      tile = o.tile;
      workers = o.workers;
      scale = o.scale;
      sinks = option_map_or (λ v. v.items) o.sinks [];
      progress = o.progress;
    } };

    ghost invariant = { λ o. IsRequest
        (record {
          map = o.map;
          tile = o.tile;
          workers = o.workers;
          scale = o.scale;
          sinks = option_map_or (λ v. v.items) o.sinks [];
          progress = o.progress;
        }) };
}

impl Options {
    /// Returns options without sinks and without a report of progress.
    ///
    /// `None` if `tile` is not 1 to 4,096 cells, `workers` not 1 to 64, or `scale` above 6.
    pub fn new(map: Map, tile: u32, workers: u32, scale: u8) -> Option<Self>
        ensures some { IfSome result (λ o. o
            ≡ record {
              map = map;
              tile = tile;
              workers = workers;
              scale = scale;
              sinks = [];
              progress = false;
            }) }
        ensures limits { IfSome result (λ _. AreLimits tile workers scale) }
        ensures none { IfNone result (AreLimits tile workers scale → ⊥) }
    {
        if (1..=LONGEST_SIDE).contains(&tile)
            && (1..=MOST_WORKERS).contains(&workers)
            && scale <= MOST_DECIMALS
        {
            Some(Options {
                map,
                tile,
                workers,
                scale,
                sinks: None,
                progress: false,
            })
        } else {
            None
        }
    }

    /// Replaces the sinks.
    ///
    /// # Errors
    ///
    /// The unchanged options if the map is a viewshed or a rise, which take no sinks.
    pub fn with_sinks(self, sinks: Vec<Place>) -> Result<Self, Self>
        ensures some { IfOk result
            (λ o. (o ≡ record self { sinks = sinks.items }) × ¬ IsSightMap self.map) }
        ensures view { IfErr result (λ o. (o ≡ self) × IsSightMap self.map) }
    {
        if let Map::View { .. } | Map::Rise { .. } = self.map {
            return Err(self);
        }
        Ok(Options {
            sinks: Some(sinks),
            ..self
        })
    }

    /// Sets whether progress is reported.
    pub fn with_progress(self, progress: bool) -> Self
        ensures { result ≡ record self { progress = progress } }
    {
        Options { progress, ..self }
    }

    /// Returns whether progress is reported.
    pub fn progress(&self) -> bool
        ensures { result ≡ self.now.progress }
    {
        self.progress
    }

    /// Returns the requested map.
    pub fn map(&self) -> &Map
        ensures { result.now ≡ self.now.map }
    {
        &self.map
    }

    /// Returns the side of the tiles, in cells.
    pub fn tile(&self) -> u32
        ensures value { result ≡ self.now.tile }
        ensures limits { AreLimits self.now.tile self.now.workers self.now.scale }
    {
        self.tile
    }

    /// Returns the number of workers.
    pub fn workers(&self) -> u32
        ensures value { result ≡ self.now.workers }
        ensures limits { AreLimits self.now.tile self.now.workers self.now.scale }
    {
        self.workers
    }

    /// Returns the scale: heights are read in units of 10^-scale.
    pub fn scale(&self) -> u8
        ensures value { result ≡ self.now.scale }
        ensures limits { AreLimits self.now.tile self.now.workers self.now.scale }
    {
        self.scale
    }

    /// Returns the sinks in the order given; a viewshed and a rise have none.
    pub fn sinks(&self) -> &[Place]
        ensures value { result.now ≡ self.now.sinks }
        ensures view { IsSightMap self.now.map → self.now.sinks ≡ [] }
    {
        match &self.sinks {
            Some(sinks) => sinks.as_slice(),
            None => &[],
        }
    }
}
