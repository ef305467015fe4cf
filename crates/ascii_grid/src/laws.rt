//! Theorems about texts, their grids and their faults; the functions have no code.
//!
//! A lawful grid, `IsLawful` in `terrain/specs/Raster.antt`, has all its parts within limits and
//! no height equal to the NODATA value.
ghost use Rattle.std.specs.Prelude.{◌≡◌, ℕ, ◌≤◌, ◌++◌, List, [], length, Some};
ghost use Rattle.terrain.specs.Raster.{Raster, IsLawful};
ghost use Rattle.terrain.specs.Sinks.{raster_with_sinks};
ghost use Rattle.ascii_grid.specs.GridText.{IsGridText, text_fault, fault_so_far, most_bytes, IsRefusal, IsRefusalSoFar};
ghost use Rattle.ascii_grid.specs.Text.{heights_text};
ghost use Rattle.ascii_grid.specs.declared.fault.GridFault.{GridFault};
ghost use Rattle.ascii_grid.specs.declared.fault.GridFault.TheVariants.{Memory};

/// Every grid that a text spells at a scale of at most 6 is lawful.
pub fn grids_are_lawful()
    ensures { (d : ℕ) (text : List ℕ) (g : Raster) → d ≤ 6 → IsGridText d text g → IsLawful g }
{}

/// Whatever bytes follow, a fault found so far remains the text's fault.
pub fn faults_stay()
    ensures { (d : ℕ) (text more : List ℕ) (f : GridFault) → fault_so_far d text ≡ Some f →
        text_fault d (text ++ more) ≡ Some f }
{}

/// If a text so far may be refused with `Memory`, so may the text with any bytes after it.
pub fn memory_refusals_stay()
    ensures { (d : ℕ) (text more : List ℕ) → IsRefusalSoFar d text Memory →
        IsRefusal d (text ++ more) Memory }
{}

/// A text spells at most one grid at each scale.
pub fn grids_are_one()
    ensures { (d : ℕ) (text : List ℕ) (g h : Raster) → IsGridText d text g → IsGridText d text h →
        g ≡ h }
{}

/// A lawful grid's text of up to 2^29 bytes reads back as the grid without sinks.
#[tactic(auto, using(crate::proofs::ReadBack::read_back))]
pub fn grids_read_back()
    ensures { (g : Raster) → IsLawful g → length (heights_text g) ≤ most_bytes →
        IsGridText g.scale (heights_text g) (raster_with_sinks g []) }
{}

/// A lawful grid's text has at most 2^29 bytes if its NODATA word has at most 30.
#[tactic(auto, using(crate::proofs::TextLength::text_short))]
pub fn grid_texts_fit()
    ensures { (g : Raster) → IsLawful g → length g.nodata ≤ 30 →
        length (heights_text g) ≤ most_bytes }
{}
