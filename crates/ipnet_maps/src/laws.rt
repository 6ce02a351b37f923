//! Laws of layouts: facts about all maps. Nothing here does anything at run time.
ghost use Rattle.std.specs.Prelude.{◌≡◌, ◌↔◌, ◌⊎◌, ◌+◌, ◌-◌, ◌/◌, ◌%◌, ◌^◌, ◌<◌, ◌≤◌, ℕ, List, length, All};
ghost use Rattle.ipnet_base.specs.Network.{Network};
ghost use Rattle.ipnet_sets.specs.declared.set.IpSet.{IpSet};
ghost use Rattle.ipnet_sets.specs.Members.{IsMember, IsSubset};
ghost use Rattle.ipnet_maps.specs.declared.level.Level.{Level};
ghost use Rattle.ipnet_maps.specs.declared.level.Level.TheVariants.{Nothing, Whole};
ghost use Rattle.ipnet_bars.specs.Parts.{HasNone, HasAll};
ghost use Rattle.ipnet_maps.specs.declared.layout.Axis.{Axis};
ghost use Rattle.ipnet_maps.specs.declared.layout.Rectangle.{Rectangle};
ghost use Rattle.ipnet_maps.specs.Cuts.{columns_in, rows_in, column_of, row_of, cell_at};
ghost use Rattle.ipnet_maps.specs.Squares.{cuts_from, square_cuts, IsRectangleOf, IsInRectangle};
ghost use Rattle.ipnet_maps.specs.Paths.{corner, path_of, rows_path, FitsWords};
ghost use Rattle.ipnet_maps.specs.Levels.{IsLevelOf, place_of};

/// The cells of a map and the places of its grid are one to one, whatever the cuts are.
pub fn cells_and_places_are_one_to_one()
    ensures cell { (cuts : List Axis) (cell : ℕ) → cell < 2 ^ length cuts
        → (column_of cuts cell < 2 ^ columns_in cuts) × (row_of cuts cell < 2 ^ rows_in cuts)
        × (cell_at cuts (column_of cuts cell) (row_of cuts cell) ≡ cell) }
    ensures place { (cuts : List Axis) (column row : ℕ) → column < 2 ^ columns_in cuts → row < 2 ^ rows_in cuts
        → (cell_at cuts column row < 2 ^ length cuts) × (column_of cuts (cell_at cuts column row) ≡ column)
        × (row_of cuts (cell_at cuts column row) ≡ row) }
{}

/// The cells of a block are exactly the cells of its rectangle.
pub fn blocks_are_rectangles()
    ensures { (frame_len depth block low_bits cell : ℕ) (r : Rectangle) → low_bits ≤ depth
        → block < 2 ^ (depth - low_bits) → cell < 2 ^ depth → IsRectangleOf frame_len depth block low_bits r
        → (cell / 2 ^ low_bits ≡ block)
        ↔ IsInRectangle r (column_of (square_cuts frame_len depth) cell) (row_of (square_cuts frame_len depth) cell) }
{}

/// One block lies in another exactly if its rectangle lies in the other's rectangle.
pub fn blocks_nest_as_their_rectangles()
    ensures { (frame_len depth block low_bits other other_bits : ℕ) (r s : Rectangle) → low_bits ≤ depth
        → other_bits ≤ depth → block < 2 ^ (depth - low_bits) → other < 2 ^ (depth - other_bits)
        → IsRectangleOf frame_len depth block low_bits r → IsRectangleOf frame_len depth other other_bits s
        → ((cell : ℕ) → cell < 2 ^ depth → cell / 2 ^ low_bits ≡ block → cell / 2 ^ other_bits ≡ other)
        ↔ ((column row : ℕ) → IsInRectangle r column row → IsInRectangle s column row) }
{}

/// A map whose bits are as even or odd in number as the bits of its frame is a square, or twice as wide as it is high.
/// The sides of each rectangle in it differ by a factor of at most 16.
pub fn sides_differ_little()
    ensures map { (frame_len depth : ℕ) → depth ≤ 20 → depth % 2 ≡ frame_len % 2
        → let cuts = square_cuts frame_len depth in
        (columns_in cuts ≡ rows_in cuts) ⊎ (columns_in cuts ≡ rows_in cuts + 1) }
    ensures rectangle { (frame_len depth low_bits : ℕ) → depth ≤ 20 → depth % 2 ≡ frame_len % 2 → low_bits ≤ depth
        → let cuts = cuts_from frame_len depth 0 low_bits in
        (columns_in cuts ≤ rows_in cuts + 4) × (rows_in cuts ≤ columns_in cuts + 4) }
{}

/// A path reads back as its rectangles: no other list of rectangles has the same path. A path of lines reads back as
/// its rows.
pub fn paths_read_back()
    ensures rectangles { (rs ss : List Rectangle) → All FitsWords rs → All FitsWords ss
        → path_of corner rs ≡ path_of corner ss → rs ≡ ss }
    ensures rows { (rs ss : List Rectangle) → All FitsWords rs → All FitsWords ss → All (λ r. r.sides.height ≡ 1) rs
        → All (λ s. s.sides.height ≡ 1) ss → rows_path rs ≡ rows_path ss → rs ≡ ss }
{}

/// The level of a cell is the lowest if and only if no address of the cell is in the set, and the highest if and only
/// if all are. A set with more addresses has no lower level in a cell. So a part is never shown as nothing, nor as all.
pub fn levels_follow_sets()
    ensures nothing { (s : IpSet) (n : Network) (level : Level) → IsLevelOf (IsMember s) n level
        → (level ≡ Nothing) ↔ HasNone (IsMember s) n }
    ensures whole { (s : IpSet) (n : Network) (level : Level) → IsLevelOf (IsMember s) n level
        → (level ≡ Whole) ↔ HasAll (IsMember s) n }
    ensures ordered { (a b : IpSet) (n : Network) (level other : Level) → IsSubset a b → IsLevelOf (IsMember a) n level
        → IsLevelOf (IsMember b) n other → place_of level ≤ place_of other }
{}
