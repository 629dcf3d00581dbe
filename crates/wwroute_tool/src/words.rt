// What the words ask for.
ghost use Rattle.std.specs.Prelude.{◌≡◌, None, map, string_bytes, IfSome};
ghost use Rattle.wwroute_tool.specs.Words.{AsksFor, AsksForNone};

use routed_plans::ShownNets;

/// A command of the program.
#[derive(Clone, Copy)]
pub enum Command {
    /// The netlist of a routed circuit.
    Extract,
    /// The routed circuit of a netlist, with lines for these nets.
    Route(ShownNets),
}

/// Returns the command that the words ask for: they are the program's name and the command's words.
pub fn command_of(words: &[String]) -> Option<Command>
    ensures some { IfSome result (AsksFor (map string_bytes words.now)) }
    ensures none { result ≡ None → AsksForNone (map string_bytes words.now) }
{
    match words {
        [_, word] => {
            if word.as_bytes() == b"extract".as_slice() {
                Some(Command::Extract)
            } else if word.as_bytes() == b"route".as_slice() {
                Some(Command::Route(ShownNets::Drawn))
            } else {
                None
            }
        }
        [_, word, option] => {
            if word.as_bytes() == b"route".as_slice() && option.as_bytes() == b"--nets".as_slice() {
                Some(Command::Route(ShownNets::All))
            } else {
                None
            }
        }
        _ => None,
    }
}
