// Numbers in 32 bits.
use cell_core::CellError;

/// Returns a number in 32 bits, or the greatest of these.
pub fn as_small(number: usize) -> u32 {
    u32::try_from(number).unwrap_or(u32::MAX)
}

/// Adds numbers in 32 bits each.
pub fn push_small(small: &mut Vec<u32>, numbers: &[usize]) -> Result<(), CellError> {
    small.reserve(numbers.len())?;
    for number in numbers {
        small.push(as_small(*number))?;
    }
    Ok(())
}
