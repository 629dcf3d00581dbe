// Counts the uses of values from the last to the first, and the lanes that copies need.
ghost use Rattle.std.specs.Prelude.{◌≡◌, ◌==◌, ◌≤◌, ◌<◌, ◌+◌, ◌-◌, ◌*◌, ◌^◌, ◌++◌, [], length, All, cond, set, IfOk};
ghost use Rattle.lists.specs.Items.{number_at};
ghost use Rattle.row_placer.specs.Uses.{uses_of, owed, owed_ports, unused, idle, AreCounted, ReadsBelow};

use crate::{NumberedCell, PlaceError};
use std::alloc::Global;

// Counts one more use of a value; 1 if it had uses already.
fn add_use(left: &mut [u32], value: u32) -> u32
    requires within { value < length left.old }
    requires few { number_at left.old value < 2 ^ 32 - 1 }
    ensures need { result ≡ cond (number_at left.old value == 0) 0 1 }
    ensures left { left.new ≡ set left.old value (number_at left.old value + 1) }
{
    let before = left[value as usize];
    left[value as usize] = before + 1;
    if before == 0 { 0 } else { 1 }
}

// 1 if a value has no use, and else 0.
fn unused(left: &[u32], value: u32) -> u32
    requires { value < length left.now }
    ensures { result ≡ unused (number_at left.now value) }
{
    if left[value as usize] == 0 { 1 } else { 0 }
}

/// Returns how many of the first `values` values have no use.
pub fn count_idle(left: &Vec<u32>, values: u32) -> u32
    requires { values ≤ length left.now.items }
    ensures { result ≡ idle left.now.items values }
{
    let uses = left.as_slice();
    let mut idle = 0;
    let mut value = 0;
    while value < values {
        idle += unused(uses, value);
        value += 1;
    }
    idle
}

// Counts the uses of ports in a table that has none yet; how many free lanes are enough for them.
fn count_ports(left: &mut [u32], ports: &[u32]) -> u32
    requires none { AreCounted left.old [] }
    requires ports { All (λ v. v < length left.old) ports.now }
    requires few { length ports.now < 2 ^ 32 - 1 }
    ensures left { AreCounted left.new ports.now }
    ensures long { length left.new ≡ length left.old }
    ensures owed { result ≡ owed_ports ports.now }
    ensures few { result ≤ length ports.now }
{
    let mut owed = 0;
    let mut port = ports.len();
    while port > 0 {
        port -= 1;
        owed += add_use(left, ports[port]);
    }
    owed
}

// Counts the uses of ports and gates in a table that has none yet; how many free lanes are enough.
fn count_all(left: &mut [u32], gates: &[NumberedCell], ports: &[u32], base: u32) -> u32
    requires none { AreCounted left.old [] }
    requires long { length left.old ≡ base + length gates.now }
    requires fits { base + length gates.now < 2 ^ 32 }
    requires gates { All (ReadsBelow (base + length gates.now)) gates.now }
    requires ports { All (λ v. v < base + length gates.now) ports.now }
    requires few { 2 * length gates.now + length ports.now < 2 ^ 32 - 1 }
    ensures left { AreCounted left.new (uses_of gates.now ++ ports.now) }
    ensures long { length left.new ≡ base + length gates.now }
    ensures owed { result ≡ owed ports.now base gates.now }
    ensures few { result ≤ length gates.now + length ports.now + 1 }
{
    let mut owed = count_ports(left, ports);
    let mut at = gates.len();
    while at > 0 {
        at -= 1;
        let gate = gates[at];
        let freed = 1 + unused(left, base + at as u32);
        let second = add_use(left, gate.second);
        let first = add_use(left, gate.first);
        owed = first + (second + owed.saturating_sub(freed));
    }
    owed
}

/// Returns how often each value is used, and how many free lanes are enough. The gates make the
/// values from `base` on.
pub fn count_uses(
    alloc: Global,
    gates: &[NumberedCell],
    ports: &[u32],
    base: u32,
) -> Result<(Vec<u32>, u32), PlaceError>
    requires fits { base + length gates.now < 2 ^ 32 }
    requires gates { All (ReadsBelow (base + length gates.now)) gates.now }
    requires ports { All (λ v. v < base + length gates.now) ports.now }
    requires few { 2 * length gates.now + length ports.now < 2 ^ 32 - 1 }
    ensures left { IfOk result (λ r. AreCounted r.0.items (uses_of gates.now ++ ports.now)) }
    ensures long { IfOk result (λ r. length r.0.items ≡ base + length gates.now) }
    ensures owed { IfOk result (λ r. r.1 ≡ owed ports.now base gates.now) }
    ensures few { IfOk result (λ r. r.1 ≤ length gates.now + length ports.now + 1) }
{
    let mut left = vec![in alloc; 0; base as usize + gates.len()]?;
    let owed = count_all(left.as_mut_slice(), gates, ports, base);
    Ok((left, owed))
}
