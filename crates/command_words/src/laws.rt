//! What is proved of commands, for every list of words. The functions do nothing: each has a law as its contract.

ghost use Rattle.command_words.specs.Laws.{WrittenIsCommand, CommandsHaveValues};

/// Each command in its plainest form is a command, with the values with which it is written. The
/// plainest form is the command's name, its options in the order of the table, each as two words
/// with numbers in digits and in their ranges, and then any words that are neither empty nor begin
/// with a hyphen. `probe` may leave out `--path`, which is then `-`; `compile` may leave out
/// `--contexts`, which is then 1, if it has no words.
pub fn written_words_are_commands()
    ensures { WrittenIsCommand }
{}

/// Words that are a command have values, and clap finds no fault in them.
pub fn commands_have_values()
    ensures { CommandsHaveValues }
{}
