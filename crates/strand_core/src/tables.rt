// Tables that are read and written anywhere: outside there are zeros, and nothing is written.

/// Returns the number at a place, or 0 outside.
pub fn at(row: &[u32], i: u32) -> u32 {
    match row.get(i as usize) {
        Some(number) => *number,
        None => 0,
    }
}

/// Writes a number at a place, or nothing outside.
pub fn put(row: &mut [u32], i: u32, number: u32) {
    if (i as usize) < row.len() {
        row[i as usize] = number;
    }
}

/// Puts an item at a place, or nowhere outside.
pub fn set<T: Copy>(items: &mut [T], place: u32, item: T) {
    if (place as usize) < items.len() {
        items[place as usize] = item;
    }
}

/// Adds an item, or notes that memory was refused.
pub fn add<T: Drop>(items: &mut Vec<T>, item: T, is_refused: &mut bool) {
    if items.push(item).is_err() {
        *is_refused = true;
    }
}

/// Lets a vector have so many items, of which the new ones are this one, or notes that memory was refused.
pub fn widen<T: Copy>(items: &mut Vec<T>, count: usize, item: T, is_refused: &mut bool) {
    if items.resize(count, item).is_err() {
        *is_refused = true;
    }
}
