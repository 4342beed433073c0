//! Lists of blocks and of items.
use crate::Item;
use rx_block::Block;
use rx_list::Listed;

/// The blocks of a number, the least first.
pub type Blocks = Listed<Block>;

/// The items of a file, in order.
pub type Items = Listed<Item>;
