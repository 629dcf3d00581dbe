//! Gives the tiles and strands of a circuit columns and rows of cells.
//!
//! Tiles are placed from west to east, column by column, each as soon as its strands come to it and the rows have room for
//! it. The rows of all cells are as far north as the others let them be: a tile that is placed pushes others south, also
//! in columns before, and where one would come too far south it waits. Where very many strands run side by side, they keep
//! room between them. Several numbers of rows are tried, and the drawing with the smallest box and period is taken.
#![tactic(auto)]

mod cells;
mod placing;
mod plane;
mod search;
mod shapes;
mod sweep;
mod tails;

pub use search::laid_out;
