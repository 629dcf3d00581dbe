// Numbers drawn from a state, one after another.
ghost use Rattle.std.specs.Prelude.{◌≡◌, ◌<◌, ◌^◌};
ghost use Rattle.made_netlists.specs.Draws.{next_seed, number_below};

/// Draws a number below `n`, and moves the state on. It takes no memory.
pub fn draw(state: &mut u32, n: u32) -> u32
    requires state { state.old < 2 ^ 31 }
    requires some { 0 < n }
    ensures number { result ≡ number_below n state.new }
    ensures below { result < n }
    ensures next { state.new ≡ next_seed state.old }
    ensures range { state.new < 2 ^ 31 }
{
    *state = ((1103515245 * u64::from(*state) + 12345) % 2147483648) as u32;
    *state / 65536 % n
}
