//! A row of items in blocks, with room made beforehand.

ghost use Rattle.std.specs.Prelude.{◌≡◌, ◌-◌, ◌<◌, ◌≤◌, ◌++◌, ◌∷◌, [], length, vec_len, vec_capacity, OnOk, OnErr};
ghost use Rattle.std.specs.Prelude.{option_copied, slice_get, slice_index_or, slice_set};
ghost use Rattle.std.specs.Slice.{IsGetResult, IsItemAt};
ghost use Rattle.entry_blocks.specs.Rows.{joined, AreBlocks};

use std::alloc::{AllocError, Global};
use std::marker::Model;

/// How many items a block has.
const BLOCK_LENGTH: usize = 1024;

/// Items in the order in which they were appended, in blocks of 1,024. An append never moves an item.
/// If the list of the blocks grows, it is copied: 24 bytes for every 1,024 items. Contracts see the
/// items, and for how many more there is room.
#[derive(Drop)]
pub struct Blocks<T> {
    /// Each block is full before the next holds any.
    blocks: Vec<Vec<T>>,
    /// How many items there are.
    length: usize,
    room: usize,
}

impl<T> Model for Blocks<T> {
    ghost use Rattle.std.specs.Prelude.{List, ℕ};
    ghost use Rattle.entry_blocks.specs.Rows.{joined, IsRow};

    ghost Value = { List T × ℕ };

    ghost view = { λ row. (joined row.blocks.items, row.room) };

    ghost invariant = { λ row. IsRow row.blocks.items row.length row.room };
}

impl<T> Blocks<T> {
    /// No items and no room. It takes no memory.
    pub fn open(alloc: Global) -> Blocks<T>
        ensures { result ≡ ([], 0) }
    {
        Blocks {
            blocks: Vec::new(alloc),
            length: 0,
            room: 0,
        }
    }

    /// Returns the number of items.
    pub fn len(&self) -> usize
        ensures { result ≡ length self.now.0 }
    {
        self.length
    }

    /// Returns the item at an index, or `None` past the last.
    pub fn get(&self, index: usize) -> Option<&T>
        ensures value { option_copied result ≡ slice_get self.now.0 index }
        ensures item { IsItemAt self.now.0 index result }
    {
        if index < self.length {
            Some(self.at(index))
        } else {
            None
        }
    }

    /// Returns the item at an index below the number of items.
    pub fn at(&self, index: usize) -> &T
        requires { index < length self.now.0 }
        ensures { (default : T) → result.now ≡ slice_index_or self.now.0 index default }
    {
        &self.blocks[index / BLOCK_LENGTH][index % BLOCK_LENGTH]
    }

    /// Returns the item that was appended last.
    pub fn last(&self) -> Option<&T>
        ensures value { option_copied result ≡ slice_get self.now.0 (length self.now.0 - 1) }
        ensures item { IsGetResult self.now.0 0 (length self.now.0 - 1) result }
    {
        if self.length == 0 {
            return None;
        }
        self.get(self.length - 1)
    }

    /// Frees the room for further items, and keeps the items.
    pub fn give_up_room(&mut self)
        ensures { self.new ≡ (self.old.0, 0) }
    {
        self.room = 0;
    }
}

impl<T: Drop> Blocks<T> {
    /// Makes room for this many more items. A block is reserved whole.
    ///
    /// # Errors
    /// If memory is refused, or if their number is above that of a `usize`. The items and their room
    /// are then as before.
    pub fn reserve(&mut self, additional: usize) -> Result<(), AllocError>
        ensures items { self.new.0 ≡ self.old.0 }
        ensures made { OnOk result (self.new.1 ≡ additional) }
        ensures refused { OnErr result (self.new.1 ≡ self.old.1) }
    {
        let wanted = self.length.checked_add(additional).ok_or(AllocError)?;
        begin(&mut self.blocks, wanted.div_ceil(BLOCK_LENGTH))?;
        self.room = additional;
        Ok(())
    }

    /// Replaces an item by another.
    pub fn set(&mut self, index: usize, item: T)
        requires { index < length self.old.0 }
        ensures { self.new ≡ (slice_set self.old.0 index item, self.old.1) }
    {
        self.blocks[index / BLOCK_LENGTH][index % BLOCK_LENGTH] = item;
    }

    /// Appends an item, for which there is room.
    pub fn push(&mut self, item: T)
        requires { 0 < self.old.1 }
        ensures { self.new ≡ (self.old.0 ++ item ∷ [], self.old.1 - 1) }
    {
        put(&mut self.blocks[self.length / BLOCK_LENGTH], item);
        self.length += 1;
        self.room -= 1;
    }
}

/// Adds empty blocks until there are this many.
fn begin<T: Drop>(blocks: &mut Vec<Vec<T>>, wanted: usize) -> Result<(), AllocError>
    requires { AreBlocks blocks.old.items }
    ensures are_blocks { AreBlocks blocks.new.items }
    ensures items { joined blocks.new.items ≡ joined blocks.old.items }
    ensures more { length blocks.old.items ≤ length blocks.new.items }
    ensures enough { OnOk result (wanted ≤ length blocks.new.items) }
{
    let alloc = *blocks.allocator();
    while blocks.len() < wanted {
        let block = Vec::with_capacity(alloc, BLOCK_LENGTH)?;
        blocks.push(block)?;
    }
    Ok(())
}

/// Appends an item to a block that isn't full.
fn put<T: Drop>(block: &mut Vec<T>, item: T)
    requires { vec_len block.old < vec_capacity block.old }
    ensures items { block.new.items ≡ block.old.items ++ item ∷ [] }
    ensures capacity { vec_capacity block.old ≤ vec_capacity block.new }
{
    match block.push(item) {
        Ok(()) => {}
        Err(_full) => unreachable!(),
    }
}
