// What tests compare.
ghost use Rattle.std.specs.Prelude.{◌≡◌, IsOk};

use std::test::Fail;

/// Fails if the text `said` is not `want`, with a message that shows both.
pub fn expect(said: &[u8], want: &[u8]) -> Result<(), Fail>
    ensures { IsOk result → said.now ≡ want.now }
{
    if said == want {
        Ok(())
    } else {
        let (said, want) = (said.escape_ascii(), want.escape_ascii());
        Err(Fail::new(format_args!("{said}, and not {want}")))
    }
}
