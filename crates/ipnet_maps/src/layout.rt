//! The layout of a map: the place of each cell, and the rectangle of each block.
ghost use Rattle.std.specs.Prelude.{◌≡◌, ◌+◌, ◌-◌, ◌*◌, ◌^◌, ◌<◌, ◌≤◌};
ghost use Rattle.ipnet_maps.specs.Cuts.{columns_in, rows_in, column_of, row_of};
ghost use Rattle.ipnet_maps.specs.Squares.{axis_at, cuts_from, square_cuts, IsRectangleOf};

/// The axis that a bit of a cell's number is for.
#[derive(Clone, Copy, Debug, PartialEq, Eq)]
pub enum Axis {
    /// It is a bit of the column.
    Column,
    /// It is a bit of the row.
    Row,
}

/// A place on the grid.
#[derive(Clone, Copy, Debug, PartialEq, Eq)]
pub struct Place {
    /// The column, counted from the left, from 0.
    pub column: u32,
    /// The row, counted from the top, from 0.
    pub row: u32,
}

/// The number of columns and rows.
#[derive(Clone, Copy, Debug, PartialEq, Eq)]
pub struct Sides {
    /// The number of columns.
    pub width: u32,
    /// The number of rows.
    pub height: u32,
}

/// A rectangle of the grid.
#[derive(Clone, Copy, Debug, PartialEq, Eq)]
pub struct Rectangle {
    /// The place of its first cell.
    pub place: Place,
    /// How many cells it is wide and high.
    pub sides: Sides,
}

/// The bits of an address that a map shows: `depth` bits after the first `frame_len`. Each number of `depth` bits is a
/// cell, which is a network of the prefix length `frame_len + depth`.
#[derive(Clone, Copy, Debug, PartialEq, Eq)]
pub struct Layout {
    frame_len: u8,
    depth: u8,
    ghost short: { frame_len + depth ≤ 128 },
    ghost few: { depth ≤ 20 },
}

impl Layout {
    /// The layout of a map of a network with this prefix length, which shows this many bits.
    pub fn new(frame_len: u8, depth: u8) -> Layout
        requires short { frame_len + depth ≤ 128 }
        requires few { depth ≤ 20 }
        ensures len { result.frame_len ≡ frame_len }
        ensures depth { result.depth ≡ depth }
    {
        Layout { frame_len, depth }
    }

    /// The axis of this bit of an address. Bits are counted from the first, from 0.
    fn axis(self, bit: u8) -> Axis
        requires from { self.frame_len ≤ bit }
        requires to { bit < self.frame_len + self.depth }
        ensures { result ≡ axis_at self.frame_len self.depth bit }
    {
        let octet = bit / 8 * 8;
        let first = self.frame_len.max(octet);
        let end = (self.frame_len + self.depth).min(octet + 8);
        if bit - first < (end - first) / 2 {
            Axis::Row
        } else {
            Axis::Column
        }
    }

    /// The place of a block that leaves out the last `left_out` bits, on the grid of all such blocks.
    fn place_without(self, block: u32, left_out: u8) -> Place
        requires out { left_out ≤ self.depth }
        requires fits { block < 2 ^ (self.depth - left_out) }
        ensures column { result.column
            ≡ column_of (cuts_from self.frame_len self.depth left_out (self.depth - left_out)) block }
        ensures row { result.row
            ≡ row_of (cuts_from self.frame_len self.depth left_out (self.depth - left_out)) block }
        ensures narrow { result.column < 2 ^ (self.depth - left_out) }
        ensures low { result.row < 2 ^ (self.depth - left_out) }
    {
        if left_out == self.depth {
            return Place { column: 0, row: 0 };
        }
        let outer = self.place_without(block / 2, left_out + 1);
        let bit = block % 2;
        match self.axis(self.frame_len + self.depth - 1 - left_out) {
            Axis::Column => Place {
                column: outer.column * 2 + bit,
                row: outer.row,
            },
            Axis::Row => Place {
                column: outer.column,
                row: outer.row * 2 + bit,
            },
        }
    }

    /// The number of columns and rows of the blocks that are made of `count` bits, after `left_out` bits are left out.
    fn sides_of(self, left_out: u8, count: u8) -> Sides
        requires { left_out + count ≤ self.depth }
        ensures width { result.width ≡ 2 ^ columns_in (cuts_from self.frame_len self.depth left_out count) }
        ensures height { result.height ≡ 2 ^ rows_in (cuts_from self.frame_len self.depth left_out count) }
        ensures narrow { result.width ≤ 2 ^ count }
        ensures low { result.height ≤ 2 ^ count }
    {
        if count == 0 {
            return Sides {
                width: 1,
                height: 1,
            };
        }
        let outer = self.sides_of(left_out + 1, count - 1);
        match self.axis(self.frame_len + self.depth - 1 - left_out) {
            Axis::Column => Sides {
                width: outer.width * 2,
                height: outer.height,
            },
            Axis::Row => Sides {
                width: outer.width,
                height: outer.height * 2,
            },
        }
    }

    /// Returns the place of the cell.
    ///
    /// ```text
    /// of the cell 172 in a map of 10.20.0.0/16 with 8 bits, which is 10.20.172.0/24: column 12, row 10
    /// ```
    pub fn place(self, cell: u32) -> Place
        requires { cell < 2 ^ self.depth }
        ensures column { result.column ≡ column_of (square_cuts self.frame_len self.depth) cell }
        ensures row { result.row ≡ row_of (square_cuts self.frame_len self.depth) cell }
    {
        self.place_without(cell, 0)
    }

    /// Returns the number of columns and rows of the map.
    ///
    /// ```text
    /// of a map with 8 bits of 10.20.0.0/16: 16 and 16; with 13 bits of 10.0.0.0/11: 128 and 64
    /// ```
    pub fn sides(self) -> Sides
        ensures width { result.width ≡ 2 ^ columns_in (square_cuts self.frame_len self.depth) }
        ensures height { result.height ≡ 2 ^ rows_in (square_cuts self.frame_len self.depth) }
    {
        self.sides_of(0, self.depth)
    }

    /// Returns the rectangle of the cells of a block: those whose number without the last `low_bits` bits is `block`.
    ///
    /// ```text
    /// of 10.20.160.0/20 in a map of 10.20.0.0/16 with 8 bits, which is block 10 with 4 low bits:
    /// column 0, row 10, 16 wide and 1 high
    /// ```
    pub fn rectangle(self, block: u32, low_bits: u8) -> Rectangle
        requires low { low_bits ≤ self.depth }
        requires fits { block < 2 ^ (self.depth - low_bits) }
        ensures { IsRectangleOf self.frame_len self.depth block low_bits result }
    {
        let outer = self.place_without(block, low_bits);
        let sides = self.sides_of(0, low_bits);
        let place = Place {
            column: outer.column * sides.width,
            row: outer.row * sides.height,
        };
        Rectangle { place, sides }
    }
}
